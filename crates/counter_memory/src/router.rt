// The router.

#![tactic(auto, unfolding(crate::specs::Router::router_memory, crate::specs::Router::router_of))]

ghost use Rattle.std.specs.Prelude.{◌≡◌};
ghost use Rattle.counter_memory.specs.Router.{router_memory, router_of};

use crate::bindings::BindingsMemory;
use input_router::router::PlatformInputRouter;
use lists::table::Table;
use maps::bindings::Bindings;
use maps::sequences::{DeviceSequence, DeviceSequences};

// A struct of its own, since C hands in no table with parameters.
#[repr(C)]
#[derive(Clone, Copy)]
pub struct SequencesMemory {
    pub entries: [DeviceSequence; 32],
    pub len: usize,
}

#[repr(C)]
#[derive(Clone, Copy)]
pub struct RouterMemory {
    pub max_active_bindings: u64,
    pub last_timestamp_micros: u64,
    pub device_sequences: SequencesMemory,
    pub bindings: BindingsMemory,
}

impl From<PlatformInputRouter> for RouterMemory {
    ghost from_gives = { λ router memory. memory ≡ router_memory router };

    fn from(router: PlatformInputRouter) -> Self {
        let entries = router.device_sequences.table.items;
        Self {
            max_active_bindings: router.max_active_bindings,
            last_timestamp_micros: router.last_timestamp_micros,
            device_sequences: SequencesMemory {
                entries,
                len: router.device_sequences.table.len,
            },
            bindings: BindingsMemory::from(router.bindings),
        }
    }
}

impl From<RouterMemory> for PlatformInputRouter {
    ghost from_gives = { λ memory router. router ≡ router_of memory };

    fn from(memory: RouterMemory) -> Self {
        let items = memory.device_sequences.entries;
        Self {
            max_active_bindings: memory.max_active_bindings,
            last_timestamp_micros: memory.last_timestamp_micros,
            device_sequences: DeviceSequences {
                table: Table {
                    items,
                    len: memory.device_sequences.len,
                },
            },
            bindings: Bindings::from(memory.bindings),
        }
    }
}
