// What is written of a run: numbers that depend on every call of it.
use composition_state::registry::CompositionRegistry;
use handles::GenerationalHandle;
use input_releases::answer::PlatformInputRoutingReport;
use input_router::router::PlatformInputRouter;

// The registry's revision and the number of open presses at the end, and the sum over all answers.
#[derive(Clone, Copy)]
pub struct Tally {
    pub revision: u64,
    pub presses: u64,
    pub sum: u64,
}

impl Tally {
    // That of a run without calls.
    pub const NONE: Self = Tally {
        revision: 0,
        presses: 0,
        sum: 0,
    };
}

fn consumer_number(consumer: Option<GenerationalHandle>) -> u64 {
    consumer.map_or(0, |surface| u64::from(surface.generation))
}

// A sum with the answer of a routed event: its revision, consumer, deliveries and releases.
pub fn add_routed(sum: u64, report: PlatformInputRoutingReport) -> u64 {
    sum.wrapping_add(report.composition_revision)
        .wrapping_add(report.arbitration.deliveries.len as u64)
        .wrapping_add(report.synthesized_releases.len as u64)
        .wrapping_add(consumer_number(report.arbitration.consumed_by))
}

pub fn tally_of(registry: CompositionRegistry, router: PlatformInputRouter, sum: u64) -> Tally {
    Tally {
        revision: registry.revision,
        presses: router.active_binding_count() as u64,
        sum,
    }
}
