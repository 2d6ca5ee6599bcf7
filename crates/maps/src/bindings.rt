// The open presses of a router (RULES.md, Presses), each with the panel that took it last: at most 128.
ghost use Rattle.maps.specs.Keys.{binding_key};
ghost use Rattle.maps.specs.Bindings.{no_binding, key_of_binding};

use crate::keys::{BindingKey, CompositionPointerId, MapKey, binding_key};
use crate::sorted_map::{Entry, SortedMap};
use handles::GenerationalHandle;
use lists::table::Blank;

#[derive(Clone, Copy, PartialEq, Eq)]
pub struct Binding {
    pub key: BindingKey,
    pub surface: GenerationalHandle,
}

impl Blank for Binding {
    ghost BLANK = { no_binding };

    const BLANK: Self = Self {
        key: BindingKey::Pointer(CompositionPointerId {
            device: 0,
            device_generation: 0,
            contact: 0,
        }),
        surface: GenerationalHandle::ZERO,
    };
}

impl Entry for Binding {
    type Key = BindingKey;
    // The panel that took the press last.
    type Value = GenerationalHandle;

    ghost key_of = { key_of_binding };

    ghost value_of = { λ e. e.surface };

    ghost sought = { binding_key };

    fn key(&self) -> MapKey {
        binding_key(self.key)
    }

    fn value(&self) -> GenerationalHandle {
        self.surface
    }

    fn sought(key: BindingKey) -> MapKey {
        binding_key(key)
    }
}

pub type Bindings = SortedMap<Binding, 128>;
