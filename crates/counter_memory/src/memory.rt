// The counter: the memory that a host owns, and the counter that it is read as. A part is converted by `from` of its
// type: `into` would copy it once more.
ghost use Rattle.std.specs.Prelude.{◌≡◌};
ghost use Rattle.counter_memory.specs.Memory.{memory_of, counter_of};

use crate::registry::RegistryMemory;
use crate::router::RouterMemory;
use composition_state::registry::CompositionRegistry;
use counter::step::Counter;
use input_router::router::PlatformInputRouter;

#[repr(C)]
#[derive(Clone, Copy)]
pub struct CounterMemory {
    pub registry: RegistryMemory,
    pub router: RouterMemory,
}

impl From<Counter> for CounterMemory {
    ghost from_gives = { λ counter memory. memory ≡ memory_of counter };

    fn from(counter: Counter) -> Self {
        Self {
            registry: RegistryMemory::from(counter.registry),
            router: RouterMemory::from(counter.router),
        }
    }
}

// Any numbers are read as some counter, and the damage test judges what was read. A bool is 0 or 1.
impl From<CounterMemory> for Counter {
    ghost from_gives = { λ memory counter. counter ≡ counter_of memory };

    fn from(memory: CounterMemory) -> Self {
        Self {
            registry: CompositionRegistry::from(memory.registry),
            router: PlatformInputRouter::from(memory.router),
        }
    }
}
