// The call `arbitrate`, number 20: the view, the event's kind and its fields. The hits stand behind them.

#![tactic(auto, unfolding(crate::specs::Arbitrations::event_at))]

ghost use Rattle.std.specs.Prelude.{◌≡◌};
ghost use Rattle.call_numbers.specs.Arbitrations.{event_at, arbitrate_at};

use crate::words::{handle_at, optional_at, pointer_at};
use calls::arguments::ArbitrateArguments;
use records::trace::ArbitrationEvent;

// The event of a kind from 0 to 10, by the declared order; any other is read as the last.
fn event_at(words: [u64; 32]) -> ArbitrationEvent
    ensures { result ≡ event_at words }
{
    let target = optional_at(words, 4);
    let pointer = pointer_at(words, 4);
    match words[3] {
        0 => ArbitrationEvent::Pointer { hit: target },
        1 => ArbitrationEvent::PointerStack,
        2 => ArbitrationEvent::PointerFor {
            pointer,
            hit: optional_at(words, 7),
        },
        3 => ArbitrationEvent::PointerStackFor { pointer },
        4 => ArbitrationEvent::Keyboard,
        5 => ArbitrationEvent::KeyboardFor { target },
        6 => ArbitrationEvent::Gamepad,
        7 => ArbitrationEvent::GamepadFor { target },
        8 => ArbitrationEvent::Text,
        9 => ArbitrationEvent::Shortcut,
        _ => ArbitrationEvent::SystemShortcut {
            class_mask: words[4],
        },
    }
}

pub fn arbitrate_at(words: [u64; 32]) -> ArbitrateArguments
    ensures { result ≡ arbitrate_at words }
{
    ArbitrateArguments {
        view: handle_at(words, 1),
        event: event_at(words),
    }
}
