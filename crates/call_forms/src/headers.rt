// The header of a routed event, with zeros behind it.
ghost use Rattle.std.specs.Prelude.{◌≡◌, ◌∷◌};
ghost use Rattle.lists.specs.Lists.{pad};
ghost use Rattle.call_numbers.specs.Events.{header_numbers};

use crate::shared::put;
use call_fields::numbered::Numbered;
use input_events::event::PlatformInputHeader;

pub fn header_form(header: PlatformInputHeader) -> [u64; 32]
    ensures { result ≡ pad 32 0 (23 ∷ header_numbers header) }
{
    let modifiers = header.modifiers;
    put(
        [0; 32],
        0,
        &[
            23,
            header.sequence,
            header.timestamp_micros,
            header.metrics_revision,
            header.window.index.number(),
            header.window.generation.number(),
            header.view.index.number(),
            header.view.generation.number(),
            header.device.value,
            header.device.generation.number(),
            header.device_kind.number(),
            modifiers.shift.number(),
            modifiers.control.number(),
            modifiers.alt.number(),
            modifiers.meta.number(),
            modifiers.caps_lock.number(),
            modifiers.num_lock.number(),
        ],
    )
}
