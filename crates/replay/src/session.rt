// Answers a call of a script: it is made, and its line is written.

#![tactic(auto, unfolding(crate::specs::Sessions::finished, crate::specs::Sessions::answered_step, crate::specs::Sessions::answered_plain, crate::specs::Sessions::answered_no_call, crate::specs::Sessions::answered_session, crate::specs::Sessions::answered_as))]

ghost use Rattle.std.specs.Prelude.{ℕ, List, ◌≡◌};
ghost use Rattle.replay.specs.declared.session.Answered.{Answered};
ghost use Rattle.script_calls.specs.declared.script_call.SessionCall.TheVariants.{State, RouterState};
ghost use Rattle.replay.specs.Sessions.{finished, answered_step, answered_plain, answered_start, answered_no_call, answered_session, answered_as};

use crate::starts::{Started, start_registry, start_router};
use answer_line::line::{put_answer, put_end};
use answer_line::plain::{put_no_call, put_plain, put_router_state, put_state};
use calls::call::{Call, Lists};
use counter::step::{Counter, step};
use script_calls::script_call::{ScriptCall, SessionCall};

// How many calls were answered, whether digests are shown, and the counter.
#[derive(Clone, Copy)]
pub struct Session {
    pub calls: u64,
    pub are_digests_shown: bool,
    pub counter: Counter,
}

// The session after a line, and the place after the answer in the buffer.
#[derive(Clone, Copy)]
pub struct Answered {
    pub session: Session,
    pub at: usize,
}

// The end of the line, and the session after it.
fn finish(out: &mut [u8], at: usize, session: Session) -> Answered
    ensures { ◌≡◌ {A = List ℕ × Answered} (out.new, result)
        (finished session.calls session.are_digests_shown session.counter (out.old, at)) }
{
    Answered {
        session,
        at: put_end(out, at, session.counter, session.are_digests_shown),
    }
}

fn answer_step(out: &mut [u8], session: Session, call: Call, lists: Lists) -> Answered
    ensures { ◌≡◌ {A = List ℕ × Answered} (out.new, result)
        (answered_step session.calls session.are_digests_shown session.counter call lists out.old) }
{
    let stepped = step(session.counter, call, lists);
    let at = put_answer(out, session.calls, call, stepped.answer, stepped.counter);
    finish(
        out,
        at,
        Session {
            counter: stepped.counter,
            ..session
        },
    )
}

// A call that shows nothing beside its number.
fn answer_plain(out: &mut [u8], session: Session, number: u64) -> Answered
    ensures { ◌≡◌ {A = List ℕ × Answered} (out.new, result)
        (answered_plain session.calls session.are_digests_shown number session.counter out.old) }
{
    let at = put_plain(
        out,
        session.calls,
        number,
        session.counter.registry.revision,
    );
    finish(out, at, session)
}

fn answer_started(out: &mut [u8], session: Session, started: Started) -> Answered
    ensures { ◌≡◌ {A = List ℕ × Answered} (out.new, result)
        (answered_start session.calls session.are_digests_shown started out.old) }
{
    answer_plain(
        out,
        Session {
            counter: started.counter,
            ..session
        },
        started.number,
    )
}

fn answer_no_call(out: &mut [u8], session: Session) -> Answered
    ensures { ◌≡◌ {A = List ℕ × Answered} (out.new, result)
        (answered_no_call session.calls session.are_digests_shown session.counter out.old) }
{
    let at = put_no_call(out, session.calls, session.counter.registry.revision);
    finish(out, at, session)
}

fn answer_state(out: &mut [u8], session: Session) -> Answered
    ensures { ◌≡◌ {A = List ℕ × Answered} (out.new, result)
        (answered_session session.calls session.are_digests_shown session.counter State out.old) }
{
    let at = put_state(out, session.calls, session.counter.registry);
    finish(out, at, session)
}

fn answer_router_state(out: &mut [u8], session: Session) -> Answered
    ensures { ◌≡◌ {A = List ℕ × Answered} (out.new, result)
        (answered_session session.calls session.are_digests_shown session.counter RouterState out.old) }
{
    let at = put_router_state(
        out,
        session.calls,
        session.counter.registry.revision,
        session.counter.router,
    );
    finish(out, at, session)
}

fn answer_session(out: &mut [u8], session: Session, asked: SessionCall) -> Answered
    ensures { ◌≡◌ {A = List ℕ × Answered} (out.new, result)
        (answered_session session.calls session.are_digests_shown session.counter asked out.old) }
{
    match asked {
        SessionCall::Digest(on) => answer_plain(
            out,
            Session {
                are_digests_shown: on,
                ..session
            },
            0,
        ),
        SessionCall::New(given) => {
            answer_started(out, session, start_registry(session.counter, given))
        }
        SessionCall::Router(limit) => {
            answer_started(out, session, start_router(session.counter, limit))
        }
        SessionCall::State => answer_state(out, session),
        SessionCall::RouterState => answer_router_state(out, session),
    }
}

// The answer line stands at the front of the buffer.
pub fn answer_call(out: &mut [u8], session: Session, asked: Option<ScriptCall>) -> Answered
    ensures { ◌≡◌ {A = List ℕ × Answered} (out.new, result)
        (answered_as session.calls session.are_digests_shown session.counter asked out.old) }
{
    match asked {
        None => answer_no_call(out, session),
        Some(ScriptCall::Session(own)) => answer_session(out, session, own),
        Some(ScriptCall::Step(call, lists)) => answer_step(out, session, call, lists),
    }
}
