// One event, routed: its checks, what is recorded, and then the disconnect, the loss or the arbitration.
ghost use Rattle.std.specs.Prelude.{◌≡◌, true};
ghost use Rattle.composition_state.specs.Damage.{is_sound};
ghost use Rattle.input_route.specs.Route.{held_for, hits_for, tracked, arbitrated_report, routed_arbitration, recorded_event, routed};

use crate::checks::route_refusal;
use composition_arbitration::arbitrate::{ArbitrationResult, decide, result_of, with_traces_at};
use composition_arbitration::trace::push_trace;
use composition_hits::table::view_hits;
use composition_state::registry::CompositionRegistry;
use handles::GenerationalHandle;
use input_events::arbitration_event::{
    arbitration_event, is_disconnect, is_loss, needs_hits, point_of,
};
use input_events::event::PlatformInputEvent;
use input_events::presses::{Effect, effect_of, press_of, receiver};
use input_releases::answer::{PlatformInputRoutingReport, RouteKind, Routed, refused};
use input_releases::losses::{route_disconnect, route_loss};
use input_router::router::PlatformInputRouter;
use records::trace::Hits;
use release_lists::releases::Releases;

// The panel that holds the press of an event.
fn held_for(router: PlatformInputRouter, event: PlatformInputEvent) -> Option<GenerationalHandle>
    ensures { result ≡ held_for router event }
{
    router.holder(press_of(event)?)
}

// The hits of an event that is aimed by its point.
#[tactic(auto, unfolding(crate::specs::Route::hits_for))]
fn hits_for(registry: &CompositionRegistry, event: PlatformInputEvent) -> Hits
    ensures { result ≡ hits_for registry.now event }
{
    if needs_hits(event.payload) {
        view_hits(registry, event.header.view, point_of(event.payload))
    } else {
        Hits::new()
    }
}

// The presses once an event is arbitrated. Without a receiver an older press is unchanged.
fn track(
    router: PlatformInputRouter,
    effect: Effect,
    receiver: Option<GenerationalHandle>,
) -> PlatformInputRouter
    ensures { result ≡ tracked router effect receiver }
{
    match effect {
        Effect::Opens(key) => match receiver {
            None => router,
            Some(surface) => router.opened(key, surface),
        },
        Effect::Ends(key) => router.ended(key),
        Effect::Nothing => router,
    }
}

fn arbitrated_report(res: ArbitrationResult) -> PlatformInputRoutingReport
    ensures { result ≡ arbitrated_report res }
{
    PlatformInputRoutingReport {
        kind: RouteKind::Arbitrated,
        arbitration: res,
        synthesized_releases: Releases::new(),
        view_release: None,
        composition_revision: res.revision,
    }
}

fn record_event(router: PlatformInputRouter, event: PlatformInputEvent) -> PlatformInputRouter
    ensures { result ≡ recorded_event router event }
{
    router.recorded(
        event.header.device,
        event.header.sequence,
        event.header.timestamp_micros,
    )
}

// An event that is arbitrated, in a registry that has passed the damage test: who gets it, the trace of it, and the
// presses after it. Nothing but the last step makes another registry: each would be a copy.
#[tactic(auto, unfolding(crate::specs::Route::routed_arbitration))]
fn route_arbitrated(
    registry: &CompositionRegistry,
    router: PlatformInputRouter,
    event: PlatformInputEvent,
) -> Routed
    requires { is_sound registry.now ≡ true }
    ensures { result ≡ routed_arbitration registry.now router event }
{
    let asked = arbitration_event(event, held_for(router, event));
    let decision = decide(
        Ok(()),
        registry,
        event.header.view,
        asked,
        hits_for(registry, event),
    );
    if let Err(error) = decision.outcome {
        return refused(error.into(), *registry, router);
    }
    let trace = decision.trace;
    let traces = push_trace(registry.traces, registry.limits.max_trace_entries, trace);
    Routed {
        outcome: Ok(arbitrated_report(result_of(trace))),
        registry: with_traces_at(*registry, traces, trace.revision),
        router: track(
            router,
            effect_of(event),
            receiver(trace.consumed_by, trace.deliveries),
        ),
    }
}

// The checks, what is recorded, and one of three: a disconnect, a view's loss or an arbitrated event.
// Sequence and time stay recorded once the checks have passed, whatever the work then refuses.
#[tactic(auto, unfolding(crate::specs::Route::routed))]
pub fn route(
    registry: CompositionRegistry,
    router: PlatformInputRouter,
    event: PlatformInputEvent,
) -> Routed
    ensures { result ≡ routed registry router event }
{
    if let Err(error) = route_refusal(registry.is_sound(), registry.views, router, event) {
        return refused(error, registry, router);
    }
    let recorded = record_event(router, event);
    // No `else`: an answer in which branches join is written and copied once more.
    if is_disconnect(event.payload) {
        return route_disconnect(registry, recorded, event.header.device);
    }
    if is_loss(event.payload) {
        return route_loss(registry, recorded, event.header.view);
    }
    route_arbitrated(&registry, recorded, event)
}
