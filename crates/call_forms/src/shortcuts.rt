// The calls that register system shortcuts. The registrations of a set stand beside the call.

#![tactic(auto, unfolding(call_numbers::specs::Shortcuts::shortcut_numbers))]

ghost use Rattle.std.specs.Prelude.{◌≡◌, [], ◌∷◌, ◌++◌};
ghost use Rattle.lists.specs.Lists.{pad};
ghost use Rattle.call_numbers.specs.Shortcuts.{shortcut_numbers, maybe_numbers};
ghost use Rattle.call_numbers.specs.Words.{handle_numbers};

use crate::shared::{handle_form, put, revision_form};
use call_fields::groups::maybe_numbers;
use calls::arguments::{MaskArguments, RegistrationArguments};
use calls::call::ShortcutCall;

fn registration_form(given: RegistrationArguments) -> [u64; 32]
    ensures { result ≡ pad 32 0
        (18 ∷ handle_numbers given.surface ++ maybe_numbers given.registration ++ given.revision ∷ []) }
{
    let numbers = maybe_numbers(given.registration);
    let registration = numbers.registration;
    put(
        handle_form(18, given.surface),
        3,
        &[
            numbers.present,
            registration.class_mask,
            registration.scope,
            registration.priority,
            given.revision,
        ],
    )
}

fn mask_form(given: MaskArguments) -> [u64; 32]
    ensures { result ≡ pad 32 0
        (19 ∷ handle_numbers given.surface ++ given.class_mask ∷ given.revision ∷ []) }
{
    put(
        handle_form(19, given.surface),
        3,
        &[given.class_mask, given.revision],
    )
}

pub fn shortcut_form(call: ShortcutCall) -> [u64; 32]
    ensures { result ≡ pad 32 0 (shortcut_numbers call) }
{
    match call {
        ShortcutCall::RegisterSet(a) => revision_form(17, a),
        ShortcutCall::RegisterOne(a) => registration_form(a),
        ShortcutCall::SetMask(a) => mask_form(a),
    }
}
