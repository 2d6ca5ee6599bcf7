// The starts of a registry and of a router in a script: an accepted one replaces its own of the two, and a refused one
// leaves both.
ghost use Rattle.std.specs.Prelude.{◌≡◌};
ghost use Rattle.replay.specs.Starts.{kept_by, started_registry, started_router, first_counter};

use composition_state::registry::{CompositionLimits, CompositionRegistry};
use counter::step::Counter;
use handles::GenerationalHandle;
use input_router::router::PlatformInputRouter;
use records::error::number;
use script_calls::script_call::Start;

// `number` is what the line prints: 0, or the registry's or the router's refusal, which are of two types.
#[derive(Clone, Copy)]
pub struct Started {
    pub number: u64,
    pub counter: Counter,
}

// The new one where it is accepted.
fn kept<S: Copy, E: Copy>(outcome: Result<(), E>, old: S, new: S) -> S
    ensures { result ≡ kept_by outcome old new }
{
    match outcome {
        Ok(()) => new,
        Err(_) => old,
    }
}

#[tactic(auto, unfolding(crate::specs::Starts::started_registry))]
pub fn start_registry(counter: Counter, given: Start) -> Started
    ensures { result ≡ started_registry counter given }
{
    let started = CompositionRegistry::new_at(
        given.session,
        given.session_epoch,
        given.limits,
        given.first_revision,
        given.first_generation,
    );
    Started {
        number: number(started.outcome),
        counter: Counter {
            registry: kept(started.outcome, counter.registry, started.registry),
            router: counter.router,
        },
    }
}

#[tactic(auto, unfolding(crate::specs::Starts::started_router))]
pub fn start_router(counter: Counter, limit: u64) -> Started
    ensures { result ≡ started_router counter limit }
{
    let started = PlatformInputRouter::new(limit);
    Started {
        number: number(started.outcome),
        counter: Counter {
            registry: counter.registry,
            router: kept(started.outcome, counter.router, started.router),
        },
    }
}

// The counter of `new 0 1 1 8 16 64 16 32` and `router 128`.
#[tactic(auto, unfolding(crate::specs::Starts::first_counter))]
pub fn first_counter() -> Counter
    ensures { result ≡ first_counter }
{
    let session = GenerationalHandle {
        index: 0,
        generation: 1,
    };
    let limits = CompositionLimits {
        max_windows: 8,
        max_views: 16,
        max_surfaces: 64,
        max_surfaces_per_view: 16,
        max_trace_entries: 32,
    };
    Counter {
        registry: CompositionRegistry::new(session, 1, limits).registry,
        router: PlatformInputRouter::new(128).router,
    }
}
