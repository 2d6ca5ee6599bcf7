// An event as the fields that every kind is written with.
ghost use Rattle.std.specs.Prelude.{◌≡◌, None};
ghost use Rattle.answer_numbers.specs.Traces.{fields_of, no_pointer, event_fields, fields_numbers};

use crate::numbered::Numbered;
use crate::writer::Writer;
use handles::GenerationalHandle;
use maps::keys::CompositionPointerId;
use records::trace::ArbitrationEvent;

// What a kind has not is none or 0.
#[derive(Clone, Copy)]
pub struct EventFields {
    pub kind: u64,
    pub pointer: CompositionPointerId,
    pub target: Option<GenerationalHandle>,
    pub class_mask: u64,
}

// The fields of a kind that has none.
fn bare(kind: u64) -> EventFields
    ensures { result ≡ fields_of kind no_pointer None 0 }
{
    EventFields {
        kind,
        pointer: CompositionPointerId {
            device: 0,
            device_generation: 0,
            contact: 0,
        },
        target: None,
        class_mask: 0,
    }
}

impl From<ArbitrationEvent> for EventFields {
    fn from(event: ArbitrationEvent) -> EventFields
        ensures { result ≡ event_fields event }
    {
        match event {
            ArbitrationEvent::Pointer { hit } => EventFields {
                target: hit,
                ..bare(0)
            },
            ArbitrationEvent::PointerStack => bare(1),
            ArbitrationEvent::PointerFor { pointer, hit } => EventFields {
                pointer,
                target: hit,
                ..bare(2)
            },
            ArbitrationEvent::PointerStackFor { pointer } => EventFields { pointer, ..bare(3) },
            ArbitrationEvent::Keyboard => bare(4),
            ArbitrationEvent::KeyboardFor { target } => EventFields { target, ..bare(5) },
            ArbitrationEvent::Gamepad => bare(6),
            ArbitrationEvent::GamepadFor { target } => EventFields { target, ..bare(7) },
            ArbitrationEvent::Text => bare(8),
            ArbitrationEvent::Shortcut => bare(9),
            ArbitrationEvent::SystemShortcut { class_mask } => EventFields {
                class_mask,
                ..bare(10)
            },
        }
    }
}

impl Numbered for EventFields {
    ghost numbers = { fields_numbers };

    fn write(&self, to: &mut Writer<'_>) {
        self.kind.write(to);
        self.pointer.write(to);
        self.target.write(to);
        self.class_mask.write(to);
    }
}
