// Runs a script from standard input and writes one answer line for each call.

#![tactic(auto)]

mod answered;
mod lines;
mod messages;
mod session;
mod starts;

ghost use Rattle.std.specs.Prelude.{◌≤◌, [], ◌≡◌, length};
ghost use Rattle.replay.specs.Turns.{Held, serving_of, held_of, held_in, chunk_served};

use crate::lines::{answer_bytes, first_session, next_answer};
use crate::session::Session;
use std::env::{Env, FillError};
use std::io::{self, Eprint, Input, Read};

// How many lines have ended, and whether every answer so far could be written.
#[derive(Clone, Copy)]
struct Told {
    lines: u64,
    is_written: bool,
}

// The session, how many bytes of the next line have come, and what was told.
#[derive(Clone, Copy)]
struct Reading {
    session: Session,
    len: usize,
    told: Told,
}

// What is read after an input, and whether more may come.
#[derive(Clone, Copy)]
struct Served {
    reading: Reading,
    is_open: bool,
}

// The number of the next line; it stays at its end.
fn next_line(lines: u64) -> u64 {
    lines.saturating_add(1)
}

// Writes the answer that stands in the first `at` bytes of a buffer, where a line of so many bytes has ended.
fn write_answer(
    rt: &(impl Print + Eprint),
    told: Told,
    ended: Option<usize>,
    out: &[u8],
    at: usize,
    line: &[u8],
) -> Told {
    let Some(len) = ended else {
        return told;
    };
    let lines = next_line(told.lines);
    if at == 0 {
        return Told {
            lines,
            is_written: told.is_written,
        };
    }
    if messages::is_no_call(out) {
        messages::tell_fault(rt, lines, line, len);
    }
    Told {
        lines,
        is_written: messages::write_front(rt, out, at) && told.is_written,
    }
}

// Answers each line that a chunk completes: the loop itself does nothing but write. A turn says where the next one
// begins, so no range stands for the turns.
fn answer_chunk(
    rt: &(impl Print + Eprint),
    reading: Reading,
    chunk: &[u8],
    line: &mut [u8],
    out: &mut [u8],
) -> Reading
    requires { 524288 ≤ length out.old }
    ensures { ◌≡◌ {A = Held} (held_of result.session line.new result.len out.new)
        (held_in (chunk_served (serving_of reading.session line.old reading.len out.old [])
        chunk.now)) }
{
    let mut session = reading.session;
    let mut len = reading.len;
    let mut told = reading.told;
    let mut at = 0;
    while at < chunk.len() {
        let turn = next_answer(session, len, line, chunk, at, out);
        told = write_answer(rt, told, turn.ended, out, turn.at, line);
        session = turn.session;
        len = turn.len;
        at = turn.next;
    }
    Reading { session, len, told }
}

// Reads once and answers the lines that are complete, so that each is answered before more is read. What cannot be read
// is taken for the input's end.
fn serve_some<R: Read>(
    rt: &(impl Print + Eprint),
    input: &mut R,
    reading: Reading,
    line: &mut [u8],
    out: &mut [u8],
) -> Served
    requires { 524288 ≤ length out.old }
{
    let mut chunk = [0u8; 65536];
    let n = input.read(&mut chunk).unwrap_or(0);
    if n == 0 {
        return Served {
            reading,
            is_open: false,
        };
    }
    let next = answer_chunk(rt, reading, &chunk[..n], line, out);
    Served {
        reading: next,
        is_open: next.told.is_written,
    }
}

// Nothing is read yet.
fn first_reading() -> Reading {
    Reading {
        session: first_session(),
        len: 0,
        told: Told {
            lines: 0,
            is_written: true,
        },
    }
}

// Serves the input to its end. A proved loop has to end, so this one has a number of turns that no run uses up. A last
// line that no line feed ends is a line too.
fn serve(rt: &(impl Input + Print + Eprint), line: &mut [u8], out: &mut [u8])
    requires { 524288 ≤ length out.old }
{
    let mut input = rt.reader();
    let mut reading = first_reading();
    for _ in 0..u64::MAX {
        let served = serve_some(rt, &mut input, reading, line, out);
        reading = served.reading;
        if !served.is_open {
            break;
        }
    }
    let last = answer_bytes(reading.session, line, reading.len, out);
    let told = write_answer(rt, reading.told, Some(reading.len), out, last.at, line);
    if !told.is_written {
        messages::tell_unwritten(rt);
    }
}

// A buffer that a whole answer line fits.
fn answer_buffer() -> [u8; 524288] {
    [0; 524288]
}

// Every line fits the buffer: no answer is longer than 419,862 bytes (`line_lengths::line_length_claims`), and
// `answer_bytes` requires the room.
fn main(rt: HostRuntime) -> io::Result<()> {
    let mut word = [0u8; 8];
    match rt.arg(1, &mut word) {
        Ok(n) => return messages::tell_usage(&rt, &word[..n] == b"--help".as_slice()),
        Err(FillError::TooLong) => return messages::tell_usage(&rt, false),
        Err(FillError::NotPresent) => {}
    }
    let mut line = [0u8; 4097];
    let mut out = answer_buffer();
    serve(&rt, &mut line, &mut out);
    Ok(())
}
