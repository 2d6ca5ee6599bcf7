// What the program writes beside its answers: why a line is no call, how the program is used, that it could not write.
use line_input::parse_line;
use script::fault::LineFault;
use std::io::{self, Eprint};

// Writes the first `len` bytes of a buffer, and says whether they are written.
pub fn write_front(rt: &impl Print, out: &[u8], len: usize) -> bool {
    len <= out.len() && rt.write_all(&out[..len]).is_ok()
}

// Whether an answer has `?` in its second column; the first has at most 20 digits.
pub fn is_no_call(answer: &[u8]) -> bool {
    match answer.iter().take(21).position(|b| *b == b' ') {
        Some(i) => answer.get(i + 1) == Some(&b'?'),
        None => false,
    }
}

// A line with a verb and numbers is no call only if its numbers are not those that the verb asks for.
fn reason(line: &[u8], len: usize) -> &'static str {
    match parse_line(line, len) {
        Err(LineFault::LongLine) => "longer than 4,096 bytes",
        Err(LineFault::UnknownVerb) => "unknown verb",
        Err(LineFault::MalformedNumber) => "malformed number",
        Ok(_) => "wrong number of fields, or a number out of its range",
    }
}

// Says on standard error why the first `len` bytes of a buffer, a line of the input by its number, are no call. Where
// that cannot be written the answers go on.
pub fn tell_fault(rt: &impl Eprint, number: u64, line: &[u8], len: usize) {
    let reason = reason(line, len);
    let _is_told = eprintln!(rt; "replay: line {number}: {reason}").is_ok();
}

pub fn tell_unwritten(rt: &impl Eprint) {
    let _is_told = eprintln!(rt; "replay: the answers could not be written").is_ok();
}

// One line on how the program is used: on standard output where it is asked for, and else on standard error.
pub fn tell_usage(rt: &(impl Print + Eprint), is_asked: bool) -> io::Result<()> {
    let usage =
        "usage: replay < SCRIPT   (calls from standard input, one a line; docs/REPLAY.md has the format)";
    if is_asked {
        return println!(rt; "{usage}");
    }
    eprintln!(rt; "{usage}")
}
