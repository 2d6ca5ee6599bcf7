// The calls that register system shortcuts: numbers 17 to 19. The list of 17 stands behind its fields.

#![tactic(auto, unfolding(crate::specs::Shortcuts::shortcut_at))]

ghost use Rattle.std.specs.Prelude.{◌≡◌};
ghost use Rattle.call_numbers.specs.Shortcuts.{shortcut_at};

use crate::words::handle_at;
use call_fields::groups::{MaybeNumbers, RegistrationNumbers, maybe_of};
use calls::arguments::{HandleArguments, MaskArguments, RegistrationArguments};
use calls::call::ShortcutCall;

// The call of a number from 17 to 19; any other is read as the last.
pub fn shortcut_at(words: [u64; 32]) -> ShortcutCall
    ensures { result ≡ shortcut_at words }
{
    let handle = handle_at(words, 1);
    match words[0] {
        17 => ShortcutCall::RegisterSet(HandleArguments {
            handle,
            revision: words[3],
        }),
        18 => ShortcutCall::RegisterOne(RegistrationArguments {
            surface: handle,
            registration: maybe_of(MaybeNumbers {
                present: words[3],
                registration: RegistrationNumbers {
                    class_mask: words[4],
                    scope: words[5],
                    priority: words[6],
                },
            }),
            revision: words[7],
        }),
        _ => ShortcutCall::SetMask(MaskArguments {
            surface: handle,
            class_mask: words[3],
            revision: words[4],
        }),
    }
}
