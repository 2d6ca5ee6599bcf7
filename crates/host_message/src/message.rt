// A message: a call's numbers and the lists beside it.

#![tactic(auto, unfolding(crate::specs::Messages::is_message))]

ghost use Rattle.std.specs.Prelude.{◌≡◌};
ghost use Rattle.host_message.specs.Messages.{takes_hits, takes_registrations, is_allowed, is_message};

use crate::hits::{HitsNumbers, are_hits_form};
use crate::registrations::{RegistrationsNumbers, are_registrations_form};
use call_forms::call::is_form;
use call_numbers::call::call_at;
use calls::call::{Call, ShortcutCall};
use composition_arbitration::arbitrate::is_stack;

#[repr(C)]
#[derive(Clone, Copy)]
pub struct Message {
    pub call: [u64; 32],
    pub hits: HitsNumbers,
    pub registrations: RegistrationsNumbers,
}

fn takes_hits(call: Call) -> bool
    ensures { result ≡ takes_hits call }
{
    match call {
        Call::Arbitrate(a) => is_stack(a.event),
        _ => false,
    }
}

fn takes_registrations(call: Call) -> bool
    ensures { result ≡ takes_registrations call }
{
    matches!(call, Call::Shortcut(ShortcutCall::RegisterSet(_)))
}

fn is_allowed(takes: bool, len: usize) -> bool
    ensures { result ≡ is_allowed takes len }
{
    takes || len == 0
}

// Whether the message is the one form of its call.
pub fn is_message(message: Message) -> bool
    ensures { result ≡ is_message message }
{
    let call = call_at(message.call);
    is_form(message.call)
        && are_hits_form(message.hits)
        && are_registrations_form(message.registrations)
        && is_allowed(takes_hits(call), message.hits.len)
        && is_allowed(takes_registrations(call), message.registrations.len)
}
