// The registry.

#![tactic(auto, unfolding(crate::specs::Registry::registry_memory, crate::specs::Registry::registry_of))]

ghost use Rattle.std.specs.Prelude.{◌≡◌};
ghost use Rattle.counter_memory.specs.Registry.{registry_memory, registry_of};

use crate::shortcuts::ShortcutsMemory;
use crate::surfaces::SurfaceTableMemory;
use crate::traces::TracesMemory;
use crate::views::ViewTableMemory;
use composition_state::registry::{CompositionLimits, CompositionRegistry};
use handles::GenerationalHandle;
use handles::arena::Arena;
use records::shortcut::Shortcuts;
use records::surface::SurfaceTable;
use records::trace::Traces;
use records::view::ViewTable;

#[repr(C)]
#[derive(Clone, Copy)]
pub struct RegistryMemory {
    pub session: GenerationalHandle,
    pub session_epoch: u64,
    pub limits: CompositionLimits,
    pub first_generation: u32,
    pub revision: u64,
    pub windows: Arena,
    pub views: ViewTableMemory,
    pub surfaces: SurfaceTableMemory,
    pub shortcuts: ShortcutsMemory,
    pub traces: TracesMemory,
}

impl From<CompositionRegistry> for RegistryMemory {
    ghost from_gives = { λ registry memory. memory ≡ registry_memory registry };

    fn from(registry: CompositionRegistry) -> Self {
        Self {
            session: registry.session,
            session_epoch: registry.session_epoch,
            limits: registry.limits,
            first_generation: registry.first_generation,
            revision: registry.revision,
            windows: registry.windows,
            views: ViewTableMemory::from(registry.views),
            surfaces: SurfaceTableMemory::from(registry.surfaces),
            shortcuts: ShortcutsMemory::from(registry.shortcuts),
            traces: TracesMemory::from(registry.traces),
        }
    }
}

impl From<RegistryMemory> for CompositionRegistry {
    ghost from_gives = { λ memory registry. registry ≡ registry_of memory };

    fn from(memory: RegistryMemory) -> Self {
        Self {
            session: memory.session,
            session_epoch: memory.session_epoch,
            limits: memory.limits,
            first_generation: memory.first_generation,
            revision: memory.revision,
            windows: memory.windows,
            views: ViewTable::from(memory.views),
            surfaces: SurfaceTable::from(memory.surfaces),
            shortcuts: Shortcuts::from(memory.shortcuts),
            traces: Traces::from(memory.traces),
        }
    }
}
