// The script's own calls: digests, a new registry, a new router, dumps.

#![tactic(auto, unfolding(crate::specs::Sessions::start_at, crate::specs::Sessions::new_at_in))]

ghost use Rattle.std.specs.Prelude.{◌≡◌};
ghost use Rattle.script_calls.specs.Sessions.{start_at, digest_in, new_in, new_at_in, router_in, dump_in, session_in};

use crate::groups::{handle_field, limits_field, read_field};
use crate::script_call::{SessionCall, Start};
use script::line::Fields;
use script::verb::SessionVerb;

fn digest(fields: Fields) -> Option<SessionCall>
    ensures { result ≡ digest_in fields }
{
    if fields.len != 1 {
        return None;
    }
    Some(SessionCall::Digest(read_field(fields, 0)?))
}

// Session, epoch, limits: 8 fields.
fn start_field(fields: Fields, first_revision: u64, first_generation: u32) -> Option<Start>
    ensures { result ≡ start_at fields first_revision first_generation }
{
    Some(Start {
        session: handle_field(fields, 0)?,
        session_epoch: read_field(fields, 2)?,
        limits: limits_field(fields, 3)?,
        first_revision,
        first_generation,
    })
}

fn new_call(fields: Fields) -> Option<SessionCall>
    ensures { result ≡ new_in fields }
{
    if fields.len != 8 {
        return None;
    }
    Some(SessionCall::New(start_field(fields, 0, 1)?))
}

fn new_at_call(fields: Fields) -> Option<SessionCall>
    ensures { result ≡ new_at_in fields }
{
    if fields.len != 10 {
        return None;
    }
    let revision = read_field(fields, 8)?;
    let generation = read_field(fields, 9)?;
    Some(SessionCall::New(start_field(fields, revision, generation)?))
}

fn router(fields: Fields) -> Option<SessionCall>
    ensures { result ≡ router_in fields }
{
    if fields.len != 1 {
        return None;
    }
    Some(SessionCall::Router(read_field(fields, 0)?))
}

// A dump has no fields.
fn dump(call: SessionCall, fields: Fields) -> Option<SessionCall>
    ensures { result ≡ dump_in call fields }
{
    (fields.len == 0).then_some(call)
}

// The call of a line with the call's number of fields, each in its range.
pub fn asked_session(verb: SessionVerb, fields: Fields) -> Option<SessionCall>
    ensures { result ≡ session_in verb fields }
{
    match verb {
        SessionVerb::Digest => digest(fields),
        SessionVerb::New => new_call(fields),
        SessionVerb::NewAt => new_at_call(fields),
        SessionVerb::Router => router(fields),
        SessionVerb::State => dump(SessionCall::State, fields),
        SessionVerb::RouterState => dump(SessionCall::RouterState, fields),
    }
}
