// The walk over panels of a view, from the top until one consumes the event.
ghost use Rattle.std.specs.Prelude.{◌≡◌};
ghost use Rattle.std.specs.List.{fold};
ghost use Rattle.lists.specs.Tables.{entries_of, pushed_within};
ghost use Rattle.records.specs.Traces.{hits as state_hits, deliveries as state_deliveries};
ghost use Rattle.view_panels.specs.Panels.{standing};
ghost use Rattle.composition_arbitration.specs.Layers.{verdict, delivers, consumes, observes, delivered, verdict_of, walk_of};

use crate::targets::Choice;
use handles::GenerationalHandle;
use records::surface::{SurfaceDescriptor, SurfaceInputPolicy, SurfaceRecord};
use records::trace::{Deliveries, Hits, InputDelivery};
use view_panels::ViewPanels;

// What a layer does with an event.
#[derive(Clone, Copy)]
pub enum Verdict {
    Observing,
    NotTargeted,
    PassedThrough,
    Took,
    Blocks,
}

// Who gets an event, and who takes it.
#[derive(Clone, Copy)]
pub struct Walked {
    pub deliveries: Deliveries,
    pub consumed_by: Option<GenerationalHandle>,
}

pub fn verdict_for(input: SurfaceInputPolicy, is_targeted: bool) -> Verdict
    ensures { result ≡ verdict input is_targeted }
{
    match (input, is_targeted) {
        (SurfaceInputPolicy::Observe, _) => Verdict::Observing,
        (SurfaceInputPolicy::Passthrough, true) => Verdict::PassedThrough,
        (SurfaceInputPolicy::Interactive, true) => Verdict::Took,
        (SurfaceInputPolicy::Passthrough | SurfaceInputPolicy::Interactive, false) => {
            Verdict::NotTargeted
        }
        (SurfaceInputPolicy::Exclusive, _) => Verdict::Blocks,
    }
}

impl Verdict {
    pub fn is_delivered(self) -> bool
        ensures { result ≡ delivers self }
    {
        !matches!(self, Verdict::NotTargeted)
    }

    pub fn is_consumed(self) -> bool
        ensures { result ≡ consumes self }
    {
        matches!(self, Verdict::Took | Verdict::Blocks)
    }

    pub fn is_observed(self) -> bool
        ensures { result ≡ observes self }
    {
        matches!(self, Verdict::Observing)
    }
}

// The deliveries, with that of one layer more if its verdict delivers.
fn deliver(deliveries: Deliveries, surface: GenerationalHandle, verdict: Verdict) -> Deliveries
    ensures { result ≡ fold (pushed_within state_deliveries) deliveries (delivered verdict surface) }
{
    if verdict.is_delivered() {
        let observed = verdict.is_observed();
        deliveries.push_within(InputDelivery { surface, observed })
    } else {
        deliveries
    }
}

// The verdict of a panel, by its record.
#[tactic(auto, unfolding(crate::specs::Layers::verdict_of))]
fn verdict_of(
    panel: SurfaceRecord,
    choice: Choice,
    hits: Hits,
    surface: GenerationalHandle,
) -> Verdict
    ensures { result ≡ verdict_of choice (entries_of state_hits hits)
        (record { surface = surface; descriptor = panel.descriptor }) }
{
    let SurfaceDescriptor {
        input,
        accepts_text,
        ..
    } = panel.descriptor;
    verdict_for(
        input,
        crate::targets::is_targeted(choice, hits, surface, accepts_text),
    )
}

// The deliveries and the consumer, with the panels walked from the top. A panel and its record stand at one index of
// two arrays.
pub fn walk_layers(panels: ViewPanels, choice: Choice, hits: Hits) -> Walked
    ensures { result ≡ walk_of (verdict_of choice (entries_of state_hits hits)) (standing panels) }
{
    let mut deliveries = Deliveries::new();
    for i in (0..panels.layers.count()).rev() {
        let surface = panels.layers.items[i];
        let verdict = verdict_of(panels.records[i], choice, hits, surface);
        deliveries = deliver(deliveries, surface, verdict);
        if verdict.is_consumed() {
            return Walked {
                deliveries,
                consumed_by: Some(surface),
            };
        }
    }
    Walked {
        deliveries,
        consumed_by: None,
    }
}
