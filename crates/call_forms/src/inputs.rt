// The calls on focus, captures, compositions and suspends, and the release of a device's captures.

#![tactic(auto, unfolding(call_numbers::specs::Inputs::input_numbers))]

ghost use Rattle.std.specs.Prelude.{◌≡◌, [], ◌∷◌, ◌++◌};
ghost use Rattle.lists.specs.Lists.{pad};
ghost use Rattle.call_numbers.specs.Inputs.{input_numbers, device_numbers};
ghost use Rattle.call_numbers.specs.Words.{handle_numbers, optional_numbers};

use crate::shared::{handle_form, pointer_form, put, revision_form};
use call_fields::groups::optional_numbers;
use call_fields::numbered::Numbered;
use calls::arguments::{DeviceArguments, FocusArguments};
use calls::call::InputCall;

fn focus_form(focus: FocusArguments) -> [u64; 32]
    ensures { result ≡ pad 32 0
        (8 ∷ handle_numbers focus.view ++ optional_numbers focus.surface ++ focus.revision ∷ []) }
{
    let target = optional_numbers(focus.surface);
    put(
        handle_form(8, focus.view),
        3,
        &[
            target.present,
            target.index,
            target.generation,
            focus.revision,
        ],
    )
}

pub fn input_form(call: InputCall) -> [u64; 32]
    ensures { result ≡ pad 32 0 (input_numbers call) }
{
    match call {
        InputCall::SetFocus(a) => focus_form(a),
        InputCall::CapturePointer(a) => revision_form(9, a),
        InputCall::CapturePointerFor(a) => pointer_form(10, a),
        InputCall::ReleasePointer(a) => revision_form(11, a),
        InputCall::ReleasePointerFor(a) => pointer_form(12, a),
        InputCall::BeginIme(a) => revision_form(13, a),
        InputCall::EndIme(a) => revision_form(14, a),
        InputCall::SuspendViewInput(a) => revision_form(15, a),
    }
}

pub fn device_form(released: DeviceArguments) -> [u64; 32]
    ensures { result ≡ pad 32 0 (device_numbers released) }
{
    put(
        [0; 32],
        0,
        &[16, released.device, released.device_generation.number()],
    )
}
