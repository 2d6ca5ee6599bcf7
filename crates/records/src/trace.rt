// The last arbitrations, with their events, hits and deliveries.
#![tactic(auto, unfolding(lists::specs::Tables::packed))]

ghost use Rattle.records.specs.Traces.{no_delivery, no_trace};

use handles::GenerationalHandle;
use lists::table::{Blank, Table};
use maps::keys::CompositionPointerId;

// The Rust's events; the hits of the two stack events stand beside them.
#[derive(Clone, Copy)]
pub enum ArbitrationEvent {
    Pointer {
        hit: Option<GenerationalHandle>,
    },
    PointerStack,
    PointerFor {
        pointer: CompositionPointerId,
        hit: Option<GenerationalHandle>,
    },
    PointerStackFor {
        pointer: CompositionPointerId,
    },
    Keyboard,
    KeyboardFor {
        target: Option<GenerationalHandle>,
    },
    Gamepad,
    GamepadFor {
        target: Option<GenerationalHandle>,
    },
    Text,
    Shortcut,
    SystemShortcut {
        class_mask: u64,
    },
}

// What is under a point, the topmost panel first.
pub type Hits = Table<GenerationalHandle, 16>;

#[repr(C)]
#[derive(Clone, Copy)]
pub struct InputDelivery {
    pub surface: GenerationalHandle,
    pub observed: bool,
}

pub type Deliveries = Table<InputDelivery, 16>;

#[derive(Clone, Copy)]
pub struct CompositionTrace {
    pub revision: u64,
    pub view: GenerationalHandle,
    pub event: ArbitrationEvent,
    pub hits: Hits,
    pub deliveries: Deliveries,
    pub consumed_by: Option<GenerationalHandle>,
}

pub type Traces = Table<CompositionTrace, 32>;

impl InputDelivery {
    // What stands in an unused place.
    pub const ZERO: Self = InputDelivery {
        surface: GenerationalHandle::ZERO,
        observed: false,
    };
}

impl Blank for InputDelivery {
    ghost BLANK = { no_delivery };

    const BLANK: Self = Self::ZERO;
}

impl Blank for CompositionTrace {
    ghost BLANK = { no_trace };

    const BLANK: Self = CompositionTrace {
        revision: 0,
        view: GenerationalHandle::ZERO,
        event: ArbitrationEvent::Keyboard,
        hits: Table {
            items: [GenerationalHandle::ZERO; 16],
            len: 0,
        },
        deliveries: Table {
            items: [InputDelivery::ZERO; 16],
            len: 0,
        },
        consumed_by: None,
    };
}
