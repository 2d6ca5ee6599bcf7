// The lines of a script's input, which arrives in chunks: each call of `next_answer` takes bytes up to the next line
// feed or the chunk's end and, where a line ends, answers it into a lent buffer. What is written and read is left to
// the caller.
ghost use Rattle.std.specs.Prelude.{ℕ, ◌≤◌, List, ◌≡◌, length, take};
ghost use Rattle.answer_columns.specs.Pieces.{text_then};
ghost use Rattle.replay.specs.declared.session.Answered.{Answered};
ghost use Rattle.line_input.specs.LineInput.{next_place};
ghost use Rattle.replay.specs.Replay.{first_session, line_answered};
ghost use Rattle.replay.specs.Texts.{answer_text};
ghost use Rattle.replay.specs.Turns.{serving_of, IsTurn};
ghost use Rattle.replay.specs.Claims.{ReplayClaims};

use crate::answered::answer_line;
use crate::session::{Answered, Session};
use crate::starts::first_counter;
use line_input::{is_line_skipped, parse_line, take_line};
use line_lengths::state_lengths_held;

// After a turn: the session, how many bytes of the next line are there, where the chunk goes on, and how many bytes of
// an answer stand at the front of the buffer; where a line ended, how many bytes of it are in the line's buffer. The
// counts are no slices: the caller lends both buffers again for the next turn.
#[derive(Clone, Copy)]
pub struct Turn {
    pub session: Session,
    pub len: usize,
    pub next: usize,
    pub at: usize,
    pub ended: Option<usize>,
}

// Nothing is answered yet, and no digests are shown.
pub fn first_session() -> Session
    ensures { result ≡ first_session }
{
    Session {
        calls: 0,
        are_digests_shown: false,
        counter: first_counter(),
    }
}

// Answers the line of which `len` bytes stand in the buffer, if it asks for an answer. The answers' buffer holds the
// longest line, so that the whole text of the answer stands at its front.
pub fn answer_bytes(session: Session, line: &[u8], len: usize, out: &mut [u8]) -> Answered
    requires { 524288 ≤ length out.old }
    ensures fact { ◌≡◌ {A = List ℕ × Answered} (out.new, result)
        (line_answered session (take len line.now) out.old) }
    ensures fact_2 { ◌≡◌ {A = List ℕ × ℕ} (out.new, result.at)
        (text_then (answer_text session (take len line.now)) out.old) }
{
    state_lengths_held(session.counter);
    if is_line_skipped(line, len) {
        return Answered { session, at: 0 };
    }
    answer_line(out, session, parse_line(line, len))
}

// Takes bytes of a chunk from a place on, and answers the line that they complete, if they complete one.
pub fn next_answer(
    session: Session,
    len: usize,
    line: &mut [u8],
    chunk: &[u8],
    from: usize,
    out: &mut [u8],
) -> Turn
    requires { 524288 ≤ length out.old }
    ensures turn { IsTurn (serving_of session line.old len out.old)
        (serving_of result.session line.new result.len out.new) (take result.at out.new)
        chunk.now from }
    ensures next_value { result.next ≡ next_place chunk.now from }
{
    let taken = take_line(line, len, chunk, from);
    if taken.complete {
        let answered = answer_bytes(session, line, taken.len, out);
        return Turn {
            session: answered.session,
            len: 0,
            next: taken.next,
            at: answered.at,
            ended: Some(taken.len),
        };
    }
    Turn {
        session,
        len: taken.len,
        next: taken.next,
        at: 0,
        ended: None,
    }
}

// The turns over an input are the fold over its lines, however it is cut into chunks.
pub fn replay_claims()
    ensures { ReplayClaims }
{}
