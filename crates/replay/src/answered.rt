// Answers a line of a script.

#![tactic(auto, unfolding(crate::specs::Lines::answered_line))]

ghost use Rattle.std.specs.Prelude.{ℕ, List, ◌≡◌};
ghost use Rattle.replay.specs.declared.session.Answered.{Answered};
ghost use Rattle.replay.specs.Sessions.{next_call};
ghost use Rattle.replay.specs.Lines.{asked_by, answered_line};

use crate::session::{Answered, Session, answer_call};
use script::fault::LineFault;
use script::line::Line;
use script_calls::read::read_call;
use script_calls::script_call::ScriptCall;

// The count of calls stays at its end.
fn next_call(calls: u64) -> u64
    ensures { result ≡ next_call calls }
{
    calls.saturating_add(1)
}

// The call that was read, where a line is one.
fn asked_by(line: Result<Line, LineFault>) -> Option<ScriptCall>
    ensures { result ≡ asked_by line }
{
    read_call(line.ok()?)
}

pub fn answer_line(out: &mut [u8], session: Session, line: Result<Line, LineFault>) -> Answered
    ensures { ◌≡◌ {A = List ℕ × Answered} (out.new, result) (answered_line session line out.old) }
{
    let session = Session {
        calls: next_call(session.calls),
        ..session
    };
    answer_call(out, session, asked_by(line))
}
