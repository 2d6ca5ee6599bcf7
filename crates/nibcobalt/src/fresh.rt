// A fresh counter in a host's memory: a registry and a router, both started.
ghost use Rattle.std.specs.Prelude.{◌≡◌};
ghost use Rattle.nibcobalt.specs.Fresh.{first_refusal, started_memory};

use crate::status::Status;
use composition_state::registry::{CompositionLimits, CompositionRegistry};
use counter::step::Counter;
use counter_memory::memory::CounterMemory;
use handles::GenerationalHandle;
use input_router::router::PlatformInputRouter;
use records::error::number;

// What a registry and a router are started with.
#[repr(C)]
#[derive(Clone, Copy)]
pub struct Start {
    pub session: GenerationalHandle,
    pub session_epoch: u64,
    pub limits: CompositionLimits,
    pub first_revision: u64,
    pub first_generation: u32,
    pub max_active_bindings: u64,
}

#[derive(Clone, Copy)]
pub struct Started {
    pub status: Status,
    pub memory: CounterMemory,
    pub start: Start,
}

// The registry's refusal, else the router's, as the number that C is handed.
fn first_refusal(registry: u64, router: u64) -> u64
    ensures { result ≡ first_refusal registry router }
{
    if registry == 0 { router } else { registry }
}

// A refused start leaves the memory as it was.
#[tactic(auto, unfolding(crate::specs::Fresh::started_memory))]
pub fn start_counter(memory: CounterMemory, start: Start) -> Started
    ensures { result ≡ started_memory memory start }
{
    let first = CompositionRegistry::new_at(
        start.session,
        start.session_epoch,
        start.limits,
        start.first_revision,
        start.first_generation,
    );
    let free = PlatformInputRouter::new(start.max_active_bindings);
    let refusal = first_refusal(number(first.outcome), number(free.outcome));
    let status = Status::without_answer(refusal);
    if refusal == 0 {
        let counter = Counter {
            registry: first.registry,
            router: free.router,
        };
        return Started {
            status,
            memory: CounterMemory::from(counter),
            start,
        };
    }
    Started {
        status,
        memory,
        start,
    }
}
