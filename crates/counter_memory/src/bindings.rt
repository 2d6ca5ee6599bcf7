// The open presses, each with its key as numbers, and their table.
ghost use Rattle.std.specs.Prelude.{◌≡◌};
ghost use Rattle.counter_memory.specs.Bindings.{key_of, binding_memory, binding_of, bindings_memory, bindings_of};

use crate::arrays::converted;
use handles::GenerationalHandle;
use lists::table::Table;
use maps::bindings::{Binding, Bindings};
use maps::keys::{BindingKey, CompositionPointerId, DeviceKey, InputDeviceId, MapKey, binding_key};

#[repr(C)]
#[derive(Clone, Copy)]
pub struct BindingMemory {
    pub key: MapKey,
    pub surface: GenerationalHandle,
}

// A struct of its own, since C hands in no table with parameters.
#[repr(C)]
#[derive(Clone, Copy)]
pub struct BindingsMemory {
    pub entries: [BindingMemory; 128],
    pub len: usize,
}

// A kind past the last is read as the first, a pointer. A function, since both types are of the crate `maps`.
fn key_of(key: MapKey) -> BindingKey
    ensures { result ≡ key_of key }
{
    let device = InputDeviceId {
        value: key.device,
        generation: key.generation,
    };
    match key.kind {
        1 => BindingKey::Key(DeviceKey {
            device,
            physical_key: key.code,
        }),
        2 => BindingKey::Gamepad(device),
        _ => BindingKey::Pointer(CompositionPointerId {
            device: key.device,
            device_generation: key.generation,
            contact: key.code,
        }),
    }
}

impl From<Binding> for BindingMemory {
    ghost from_gives = { λ entry memory. memory ≡ binding_memory entry };

    fn from(entry: Binding) -> Self {
        Self {
            key: binding_key(entry.key),
            surface: entry.surface,
        }
    }
}

impl From<BindingMemory> for Binding {
    ghost from_gives = { λ memory entry. entry ≡ binding_of memory };

    fn from(memory: BindingMemory) -> Self {
        Self {
            key: key_of(memory.key),
            surface: memory.surface,
        }
    }
}

impl From<Bindings> for BindingsMemory {
    ghost from_gives = { λ bindings memory. memory ≡ bindings_memory bindings };

    fn from(bindings: Bindings) -> Self {
        Self {
            entries: converted(&bindings.table.items),
            len: bindings.table.len,
        }
    }
}

impl From<BindingsMemory> for Bindings {
    ghost from_gives = { λ memory bindings. bindings ≡ bindings_of memory };

    fn from(memory: BindingsMemory) -> Self {
        Self {
            table: Table {
                items: converted(&memory.entries),
                len: memory.len,
            },
        }
    }
}
