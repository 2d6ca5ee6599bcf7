// The event of a trace: the number of its kind, in the Rust's declared order, and what a kind can have. What a kind has
// not is 0 and not read.
ghost use Rattle.std.specs.Prelude.{◌≡◌, None};
ghost use Rattle.counter_memory.specs.Events.{no_pointer, event_with, event_memory, event_of};

use crate::optionals::OptionalHandleMemory;
use maps::keys::CompositionPointerId;
use records::trace::ArbitrationEvent;

#[repr(C)]
#[derive(Clone, Copy)]
pub struct ArbitrationEventMemory {
    pub pointer: CompositionPointerId,
    pub class_mask: u64,
    pub target: OptionalHandleMemory,
    pub kind: u8,
}

// The memory of a kind that has nothing.
fn bare(kind: u8) -> ArbitrationEventMemory
    ensures { result ≡ event_with kind no_pointer None 0 }
{
    ArbitrationEventMemory {
        pointer: CompositionPointerId {
            device: 0,
            device_generation: 0,
            contact: 0,
        },
        class_mask: 0,
        target: None.into(),
        kind,
    }
}

impl From<ArbitrationEvent> for ArbitrationEventMemory {
    ghost from_gives = { λ event memory. memory ≡ event_memory event };

    fn from(event: ArbitrationEvent) -> Self {
        match event {
            ArbitrationEvent::Pointer { hit } => Self {
                target: hit.into(),
                ..bare(0)
            },
            ArbitrationEvent::PointerStack => bare(1),
            ArbitrationEvent::PointerFor { pointer, hit } => Self {
                pointer,
                target: hit.into(),
                ..bare(2)
            },
            ArbitrationEvent::PointerStackFor { pointer } => Self { pointer, ..bare(3) },
            ArbitrationEvent::Keyboard => bare(4),
            ArbitrationEvent::KeyboardFor { target } => Self {
                target: target.into(),
                ..bare(5)
            },
            ArbitrationEvent::Gamepad => bare(6),
            ArbitrationEvent::GamepadFor { target } => Self {
                target: target.into(),
                ..bare(7)
            },
            ArbitrationEvent::Text => bare(8),
            ArbitrationEvent::Shortcut => bare(9),
            ArbitrationEvent::SystemShortcut { class_mask } => Self {
                class_mask,
                ..bare(10)
            },
        }
    }
}

// A kind past the last is read as the first.
impl From<ArbitrationEventMemory> for ArbitrationEvent {
    ghost from_gives = { λ memory event. event ≡ event_of memory };

    fn from(memory: ArbitrationEventMemory) -> Self {
        let pointer = memory.pointer;
        let target = memory.target.into();
        match memory.kind {
            1 => ArbitrationEvent::PointerStack,
            2 => ArbitrationEvent::PointerFor {
                pointer,
                hit: target,
            },
            3 => ArbitrationEvent::PointerStackFor { pointer },
            4 => ArbitrationEvent::Keyboard,
            5 => ArbitrationEvent::KeyboardFor { target },
            6 => ArbitrationEvent::Gamepad,
            7 => ArbitrationEvent::GamepadFor { target },
            8 => ArbitrationEvent::Text,
            9 => ArbitrationEvent::Shortcut,
            10 => ArbitrationEvent::SystemShortcut {
                class_mask: memory.class_mask,
            },
            _ => ArbitrationEvent::Pointer { hit: target },
        }
    }
}
