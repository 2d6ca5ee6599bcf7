// One event, arbitrated: a system shortcut's winner alone gets it, and else the walk decides.
ghost use Rattle.std.specs.Prelude.{◌≡◌};
ghost use Rattle.lists.specs.Tables.{entries_of};
ghost use Rattle.records.specs.Shortcuts.{shortcuts as stored};
ghost use Rattle.composition_state.specs.Registry.{with_traces, with_revision};
ghost use Rattle.view_panels.specs.Panels.{standing};
ghost use Rattle.composition_shortcuts.specs.Resolve.{resolved_outcome};
ghost use Rattle.composition_arbitration.specs.Arbitration.{is_stack, own_hits, hits_refusal, resolution_of, alone, or_alone, walk_over, next_revision, refusal_after, trace_of, arbitrated};
ghost use Rattle.composition_arbitration.specs.Decisions.{decision_with, decision, accepted_trace, result_of};

use crate::targets::choose;
use crate::trace::push_trace;
use crate::walk::{Walked, walk_layers};
use composition_shortcuts::resolve::{Resolved, resolve_system_shortcut};
use composition_state::registry::{Answered, CompositionRegistry};
use handles::GenerationalHandle;
use records::error::{CompositionError, Outcome, refuse_if};
use records::shortcut::Shortcuts;
use records::surface::SurfaceTable;
use records::trace::{ArbitrationEvent, CompositionTrace, Deliveries, Hits, InputDelivery, Traces};
use records::view::{ViewRecord, ViewTable};
use view_panels::{ViewPanels, gather};

#[derive(Clone, Copy)]
pub struct ArbitrationResult {
    pub revision: u64,
    pub deliveries: Deliveries,
    pub consumed_by: Option<GenerationalHandle>,
}

pub type Arbitrated = Answered<ArbitrationResult>;

// Whether an event has a list of hits.
pub fn is_stack(event: ArbitrationEvent) -> bool
    ensures { result ≡ is_stack event }
{
    matches!(
        event,
        ArbitrationEvent::PointerStack | ArbitrationEvent::PointerStackFor { .. }
    )
}

// What is handed in beside an event that has no hits is left out.
#[tactic(auto, unfolding(crate::specs::Arbitration::own_hits))]
pub fn own_hits(event: ArbitrationEvent, hits: Hits) -> Hits
    ensures { result ≡ own_hits event hits }
{
    if is_stack(event) { hits } else { Hits::new() }
}

fn hits_refusal(hits: Hits) -> Outcome
    ensures { result ≡ hits_refusal hits }
{
    refuse_if(16 < hits.len, CompositionError::PortLimit)
}

// Only a system shortcut looks for a registration.
#[tactic(auto, using(crate::proofs::EventLaws::no_shortcut), unfolding(crate::specs::Arbitration::resolution_of))]
fn resolve(
    views: ViewTable,
    surfaces: SurfaceTable,
    shortcuts: Shortcuts,
    view: GenerationalHandle,
    event: ArbitrationEvent,
) -> Resolved
    ensures { result ≡ resolution_of views surfaces (entries_of stored shortcuts) view event }
{
    match event {
        ArbitrationEvent::SystemShortcut { class_mask } => {
            resolve_system_shortcut(views, surfaces, shortcuts, view, class_mask)
        }
        _ => Ok(None),
    }
}

#[tactic(auto, unfolding(crate::specs::Arbitration::alone, lists::specs::Tables::packed, lists::specs::Tables::pushed, lists::specs::Tables::pushed_within))]
fn alone(surface: GenerationalHandle) -> Walked
    ensures { result ≡ alone surface }
{
    Walked {
        deliveries: Deliveries::new().push_within(InputDelivery {
            surface,
            observed: false,
        }),
        consumed_by: Some(surface),
    }
}

// Who gets an event, and who takes it: a winner alone, and else those whom the walk over the panels reaches, aimed by
// the view's record.
#[tactic(auto, unfolding(crate::specs::Arbitration::walk_over))]
fn reach(
    state: ViewRecord,
    panels: ViewPanels,
    event: ArbitrationEvent,
    hits: Hits,
    winner: Option<GenerationalHandle>,
) -> Walked
    ensures { result ≡ or_alone winner (walk_over state (standing panels) event hits) }
{
    match winner {
        Some(surface) => alone(surface),
        None => walk_layers(panels, choose(event, state), hits),
    }
}

// At the last revision the call is refused 21, so an accepted call never stays at it.
pub fn next_revision(revision: u64) -> u64
    ensures { result ≡ next_revision revision }
{
    revision.saturating_add(1)
}

pub fn trace_of(
    revision: u64,
    view: GenerationalHandle,
    event: ArbitrationEvent,
    hits: Hits,
    walked: Walked,
) -> CompositionTrace
    ensures { result ≡ trace_of revision view event hits walked }
{
    CompositionTrace {
        revision,
        view,
        event,
        hits,
        deliveries: walked.deliveries,
        consumed_by: walked.consumed_by,
    }
}

// 21 comes before any change here, unlike in the other calls.
fn arbitrate_refusal(
    damage: Outcome,
    unknown: Outcome,
    revision: u64,
    hits: Hits,
    resolved: Resolved,
) -> Outcome
    ensures { result ≡ refusal_after damage unknown revision hits (resolved_outcome resolved) }
{
    damage?;
    unknown?;
    hits_refusal(hits)?;
    resolved?;
    refuse_if(revision == u64::MAX, CompositionError::RevisionExhausted)
}

// What is decided of an event before anything is written: its refusal, and the trace of it. No Result: the trace stands
// beside a refusal too.
#[derive(Clone, Copy)]
pub struct Decision {
    pub outcome: Outcome,
    pub trace: CompositionTrace,
}

impl Decision {
    // The trace that is kept, or why the call is refused.
    pub fn accepted_trace(self) -> Result<CompositionTrace, CompositionError>
        ensures { result ≡ accepted_trace self }
    {
        self.outcome.and(Ok(self.trace))
    }
}

// Who gets the event, and whether the call is refused: by what the damage test and the view's handle refuse, the
// registry's revision, the view's record, the panels that take part, and what was resolved.
#[tactic(auto, unfolding(crate::specs::Decisions::decision_with))]
pub fn decide_with(
    damage: Outcome,
    unknown: Outcome,
    revision: u64,
    state: ViewRecord,
    panels: ViewPanels,
    resolved: Resolved,
    view: GenerationalHandle,
    event: ArbitrationEvent,
    hits: Hits,
) -> Decision
    ensures { result ≡ decision_with damage unknown revision state (standing panels) resolved view event hits }
{
    let own = own_hits(event, hits);
    let walked = reach(state, panels, event, own, resolved.unwrap_or(None));
    Decision {
        outcome: arbitrate_refusal(damage, unknown, revision, own, resolved),
        trace: trace_of(next_revision(revision), view, event, own, walked),
    }
}

// The same in a registry, once it is tested for damage: everyone takes part.
#[tactic(auto, using(view_panels::proofs::PanelLaws::standing_gathered), unfolding(crate::specs::Decisions::decision))]
pub fn decide(
    damage: Outcome,
    registry: &CompositionRegistry,
    view: GenerationalHandle,
    event: ArbitrationEvent,
    hits: Hits,
) -> Decision
    ensures { result ≡ decision damage registry.now view event hits }
{
    let state = registry.views.record(view);
    let panels = gather(&registry.surfaces.records, state.surfaces);
    let resolved = resolve(
        registry.views,
        registry.surfaces,
        registry.shortcuts,
        view,
        event,
    );
    decide_with(
        damage,
        registry.views.refusal(view),
        registry.revision,
        state,
        panels,
        resolved,
        view,
        event,
        hits,
    )
}

// The answer of an accepted arbitration.
pub fn result_of(trace: CompositionTrace) -> ArbitrationResult
    ensures { result ≡ result_of trace }
{
    ArbitrationResult {
        revision: trace.revision,
        deliveries: trace.deliveries,
        consumed_by: trace.consumed_by,
    }
}

// The registry with other traces and another revision.
pub fn with_traces_at(
    registry: CompositionRegistry,
    traces: Traces,
    revision: u64,
) -> CompositionRegistry
    ensures { result ≡ with_revision revision (with_traces traces registry) }
{
    CompositionRegistry {
        traces,
        revision,
        ..registry
    }
}

// The hits of the two stack events stand beside the event.
pub fn arbitrate(
    registry: CompositionRegistry,
    view: GenerationalHandle,
    event: ArbitrationEvent,
    hits: Hits,
) -> Arbitrated
    ensures { result ≡ arbitrated registry view event hits }
{
    let decision = decide(registry.damage(), &registry, view, event, hits);
    if let Err(error) = decision.outcome {
        return Answered {
            outcome: Err(error),
            registry,
        };
    }
    let trace = decision.trace;
    let limit = registry.limits.max_trace_entries;
    let traces = push_trace(registry.traces, limit, trace);
    Answered {
        outcome: Ok(result_of(trace)),
        registry: with_traces_at(registry, traces, trace.revision),
    }
}
