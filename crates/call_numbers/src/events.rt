// The router's calls: numbers 23 to 25. An event is its header, then its payload.

#![tactic(auto, unfolding(crate::specs::Events::modifiers_at, crate::specs::Events::header_at, crate::specs::Events::router_at))]

ghost use Rattle.std.specs.Prelude.{◌≡◌};
ghost use Rattle.call_numbers.specs.Events.{modifiers_at, header_at, router_at};

use crate::payloads::payload_at;
use crate::words::handle_at;
use call_fields::groups::device_of;
use call_fields::numbered::Numbered;
use calls::call::RouterCall;
use input_events::event::{
    InputDeviceKind, InputModifiers, PlatformInputEvent, PlatformInputHeader,
};

fn modifiers_at(words: [u64; 32]) -> InputModifiers
    ensures { result ≡ modifiers_at words }
{
    InputModifiers {
        shift: bool::from_number(words[11]),
        control: bool::from_number(words[12]),
        alt: bool::from_number(words[13]),
        meta: bool::from_number(words[14]),
        caps_lock: bool::from_number(words[15]),
        num_lock: bool::from_number(words[16]),
    }
}

fn header_at(words: [u64; 32]) -> PlatformInputHeader
    ensures { result ≡ header_at words }
{
    PlatformInputHeader {
        sequence: words[1],
        timestamp_micros: words[2],
        metrics_revision: words[3],
        window: handle_at(words, 4),
        view: handle_at(words, 6),
        device: device_of(words[8], words[9]),
        device_kind: InputDeviceKind::from_number(words[10]),
        modifiers: modifiers_at(words),
    }
}

// The call of a number from 23 to 25; any other is read as the last.
pub fn router_at(words: [u64; 32]) -> RouterCall
    ensures { result ≡ router_at words }
{
    match words[0] {
        23 => RouterCall::Route(PlatformInputEvent {
            header: header_at(words),
            payload: payload_at(words),
        }),
        24 => RouterCall::ReleaseSurface(handle_at(words, 1)),
        _ => RouterCall::ReleaseAll,
    }
}
