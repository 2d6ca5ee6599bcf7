// The captured pointers of a view, each with its panel: at most 32.
ghost use Rattle.maps.specs.Keys.{pointer_key};
ghost use Rattle.maps.specs.Captures.{no_capture, capture_key};

use crate::keys::{CompositionPointerId, MapKey, pointer_key};
use crate::sorted_map::{Entry, SortedMap};
use handles::GenerationalHandle;
use lists::table::Blank;

#[repr(C)]
#[derive(Clone, Copy, PartialEq, Eq)]
pub struct Capture {
    pub pointer: CompositionPointerId,
    pub surface: GenerationalHandle,
}

impl Capture {
    // What stands in an unused place.
    pub const ZERO: Self = Self {
        pointer: CompositionPointerId {
            device: 0,
            device_generation: 0,
            contact: 0,
        },
        surface: GenerationalHandle::ZERO,
    };
}

impl Blank for Capture {
    ghost BLANK = { no_capture };

    const BLANK: Self = Self::ZERO;
}

impl Entry for Capture {
    type Key = CompositionPointerId;
    // The panel that has the pointer.
    type Value = GenerationalHandle;

    ghost key_of = { capture_key };

    ghost value_of = { λ e. e.surface };

    ghost sought = { pointer_key };

    fn key(&self) -> MapKey {
        pointer_key(self.pointer)
    }

    fn value(&self) -> GenerationalHandle {
        self.surface
    }

    fn sought(pointer: CompositionPointerId) -> MapKey {
        pointer_key(pointer)
    }
}

pub type PointerCaptures = SortedMap<Capture, 32>;
