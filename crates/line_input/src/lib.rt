// Lines taken out of the chunks that an input arrives in. A line's bytes gather in a buffer that the caller lends;
// a line that is longer than the buffer fills it, and its other bytes are dropped.

#![tactic(auto)]

ghost use Rattle.std.specs.Prelude.{◌≡◌, List, ℕ, take};
ghost use Rattle.script.specs.Lines.{line_of, is_skipped};
ghost use Rattle.line_input.specs.Claims.{RoundTripClaims};
ghost use Rattle.line_input.specs.LineInput.{line_taken, next_place, is_complete};

use answer_text::put::put_clipped;
use script::fault::LineFault;
use script::line::Line;
use script::words::find;

// What is known once bytes are taken: where the chunk goes on, how much of the line is there, and whether that is all
// of it. `complete` is no Option of the length, since a part of a line has one too; the buffer is the caller's.
#[derive(Clone, Copy)]
pub struct Taken {
    pub next: usize,
    pub len: usize,
    pub complete: bool,
}

// Takes the bytes of a chunk from an index on, up to a line feed or the chunk's end, into a line of which `len` bytes
// are there.
pub fn take_line(line: &mut [u8], len: usize, chunk: &[u8], from: usize) -> Taken
    ensures fact { ◌≡◌ {A = List ℕ × ℕ} (line.new, result.len)
        (line_taken (line.old, len) chunk.now from) }
    ensures next_value { result.next ≡ next_place chunk.now from }
    ensures complete_value { result.complete ≡ is_complete chunk.now from }
{
    let end = find(chunk, from, b'\n');
    let filled = put_clipped(line, len, chunk.get(from..end).unwrap_or(&[]));
    let complete = end < chunk.len();
    Taken {
        next: if complete { end + 1 } else { end },
        len: filled,
        complete,
    }
}

// The call that the first `len` bytes of a buffer write.
pub fn parse_line(line: &[u8], len: usize) -> Result<Line, LineFault>
    ensures { result ≡ line_of (take len line.now) }
{
    script::line::parse(&line[..len.min(line.len())])
}

// Whether the first `len` bytes of a buffer are an empty line or a comment.
pub fn is_line_skipped(line: &[u8], len: usize) -> bool
    ensures { result ≡ is_skipped (take len line.now) }
{
    script::line::is_skipped(&line[..len.min(line.len())])
}

// What is written in decimal is read back as the same number.
pub fn round_trip_claims()
    ensures { RoundTripClaims }
{}
