// The calls on focus, captures, compositions and suspends: numbers 8 to 15. The release of a device's captures is 16.

#![tactic(auto, unfolding(crate::specs::Inputs::input_at))]

ghost use Rattle.std.specs.Prelude.{◌≡◌};
ghost use Rattle.call_numbers.specs.Inputs.{input_at, device_at};

use crate::words::{handle_at, optional_at, pointer_at};
use call_fields::numbered::Numbered;
use calls::arguments::{DeviceArguments, FocusArguments, HandleArguments, PointerArguments};
use calls::call::InputCall;

// The call of a number from 8 to 15; any other is read as the last.
pub fn input_at(words: [u64; 32]) -> InputCall
    ensures { result ≡ input_at words }
{
    let handle = handle_at(words, 1);
    let given = HandleArguments {
        handle,
        revision: words[3],
    };
    let named = PointerArguments {
        pointer: pointer_at(words, 1),
        surface: handle_at(words, 4),
        revision: words[6],
    };
    match words[0] {
        8 => InputCall::SetFocus(FocusArguments {
            view: handle,
            surface: optional_at(words, 3),
            revision: words[6],
        }),
        9 => InputCall::CapturePointer(given),
        10 => InputCall::CapturePointerFor(named),
        11 => InputCall::ReleasePointer(given),
        12 => InputCall::ReleasePointerFor(named),
        13 => InputCall::BeginIme(given),
        14 => InputCall::EndIme(given),
        _ => InputCall::SuspendViewInput(given),
    }
}

pub fn device_at(words: [u64; 32]) -> DeviceArguments
    ensures { result ≡ device_at words }
{
    DeviceArguments {
        device: words[1],
        device_generation: u32::from_number(words[2]),
    }
}
