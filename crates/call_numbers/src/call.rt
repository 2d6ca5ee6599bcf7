// Any call from its first 32 numbers: the number at 0 tells the group.

#![tactic(auto, unfolding(crate::specs::Calls::call_at))]

ghost use Rattle.std.specs.Prelude.{◌≡◌};
ghost use Rattle.call_numbers.specs.Calls.{call_at};
ghost use Rattle.call_numbers.specs.Claims.{CallNumberClaims};

use crate::arbitrations::arbitrate_at;
use crate::events::router_at;
use crate::inputs::{device_at, input_at};
use crate::panels::panel_at;
use crate::reads::read_at;
use crate::shortcuts::shortcut_at;
use crate::words::handle_at;
use calls::call::{Call, CloseCall};

// A number past the last is read as the last group's.
pub fn call_at(words: [u64; 32]) -> Call
    ensures { result ≡ call_at words }
{
    match words[0] {
        0..8 => Call::Panel(panel_at(words)),
        8..16 => Call::Input(input_at(words)),
        16 => Call::ReleaseDevice(device_at(words)),
        17..20 => Call::Shortcut(shortcut_at(words)),
        20 => Call::Arbitrate(arbitrate_at(words)),
        21 => Call::Close(CloseCall::CloseSurface(handle_at(words, 1))),
        22 => Call::Close(CloseCall::Shutdown),
        23..26 => Call::Router(router_at(words)),
        _ => Call::Read(read_at(words)),
    }
}

// A call is read back from its numbers, and no two calls have the same.
pub fn call_number_claims()
    ensures { CallNumberClaims }
{}
