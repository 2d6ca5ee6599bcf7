// The call that a line is, by its verb: the line's numbers are read as a host's.

#![tactic(auto, unfolding(crate::specs::Calls::step_of, crate::specs::Calls::row_call, crate::specs::Calls::register_call, crate::specs::Calls::arbitrate_call, crate::specs::Calls::without_button, crate::specs::Calls::event_call, crate::specs::Calls::route_call))]

ghost use Rattle.std.specs.Prelude.{◌≤◌, ◌≡◌};
ghost use Rattle.script_calls.specs.Calls.{panel_number, input_number, close_number, read_number, step_of, row_call, register_call, has_hits, own_place, arbitrate_call, without_button, event_call, route_call, router_call, step_call, call_of};

use crate::list_fields::{hits_field, registrations_field};
use crate::lists_beside::{no_lists, with_hits, with_registrations};
use crate::rows::{Asked, asked_row, asked_rows, is_row_in_range};
use crate::script_call::ScriptCall;
use crate::sessions::asked_session;
use call_forms::call::is_form;
use call_numbers::call::call_at;
use calls::call::Lists;
use lists::table::Blank;
use script::fields::{FieldType, as_at_most, field};
use script::line::{Fields, Line};
use script::number::Number;
use script::verb::{RouterVerb, StepVerb, Verb};

// The call of the numbers, if they are what it is written as.
fn step_of(asked: Asked, lists: Lists) -> Option<ScriptCall>
    ensures { result ≡ step_of lists asked }
{
    let words = asked.words.items;
    is_form(words).then_some(ScriptCall::Step(call_at(words), lists))
}

fn row_call(number: u8, fields: Fields) -> Option<ScriptCall>
    ensures { result ≡ row_call number fields }
{
    let asked = asked_row(number, fields)?;
    if fields.len != asked.end {
        return None;
    }
    step_of(asked, no_lists())
}

// The registrations stand beside the call. A count over 64 stands, and only the first 64 are kept.
fn register_call(fields: Fields) -> Option<ScriptCall>
    ensures { result ≡ register_call fields }
{
    let list = registrations_field(fields, 3)?;
    if fields.len != 4 + 3 * list.len {
        return None;
    }
    step_of(asked_row(17, fields)?, with_registrations(list))
}

fn has_hits(kind: u8) -> bool
    ensures { result ≡ has_hits kind }
{
    kind == 1 || kind == 3
}

// Where the fields of a kind's own stand: the mask, the pointer, or the optional handle.
fn own_place(kind: u8) -> u8
    ensures { result ≡ own_place kind }
{
    match kind {
        10 => 9,
        2 | 3 => 3,
        _ => 6,
    }
}

// The hits stand beside the call. A count over 16 stands, and only the first 16 are kept.
fn arbitrate_call(fields: Fields) -> Option<ScriptCall>
    ensures { result ≡ arbitrate_call fields }
{
    let kind = as_at_most(field(fields, 2), 10)? as u8;
    let hits = hits_field(fields, 10)?;
    let listed = has_hits(kind) || hits.len == 0;
    if fields.len != 11 + 2 * hits.len || !is_row_in_range(58, fields) || !listed {
        return None;
    }
    step_of(
        asked_rows(20, 47 + kind, own_place(kind), fields)?,
        with_hits(hits),
    )
}

// The number of a button that did not change is left out.
fn without_button(fields: Fields) -> Fields
    ensures { result ≡ without_button fields }
{
    let mut next = fields;
    if field(fields, 22).magnitude == 0 && u8::from_field(field(fields, 23)).is_some() {
        next.items[23] = Number::BLANK;
    }
    next
}

fn event_call(kind: u8, fields: Fields) -> Option<ScriptCall>
    requires { kind ≤ 9 }
    ensures { result ≡ event_call kind fields }
{
    let asked = asked_rows(23, 37 + kind, 12, fields)?;
    if fields.len != asked.end {
        return None;
    }
    step_of(asked, no_lists())
}

// The payload's row is that of its kind.
fn route_call(fields: Fields) -> Option<ScriptCall>
    ensures { result ≡ route_call fields }
{
    match as_at_most(field(fields, 11), 9)? as u8 {
        0 => event_call(0, without_button(fields)),
        kind => event_call(kind, fields),
    }
}

fn router_call(verb: RouterVerb, fields: Fields) -> Option<ScriptCall>
    ensures { result ≡ router_call verb fields }
{
    match verb {
        RouterVerb::Route => route_call(fields),
        RouterVerb::ReleaseSurface => row_call(24, fields),
        RouterVerb::ReleaseAll => row_call(25, fields),
    }
}

fn step_call(verb: StepVerb, fields: Fields) -> Option<ScriptCall>
    ensures { result ≡ step_call verb fields }
{
    match verb {
        StepVerb::Panel(panel) => row_call(panel as u8, fields),
        StepVerb::Input(input) => row_call(input as u8, fields),
        StepVerb::ReleaseDevicePointerCaptures => row_call(16, fields),
        StepVerb::RegisterSurfaceSystemShortcutSet => register_call(fields),
        StepVerb::Arbitrate => arbitrate_call(fields),
        StepVerb::Close(close) => row_call(close as u8, fields),
        StepVerb::Router(router) => router_call(router, fields),
        StepVerb::Read(read) => row_call(read as u8, fields),
    }
}

// The call of a line whose fields are as its verb asks.
pub fn read_call(line: Line) -> Option<ScriptCall>
    ensures { result ≡ call_of line }
{
    match line.verb {
        Verb::Session(session) => {
            let call = asked_session(session, line.fields)?;
            Some(ScriptCall::Session(call))
        }
        Verb::Step(step) => step_call(step, line.fields),
    }
}
