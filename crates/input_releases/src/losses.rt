// What a device's disconnect and a view's loss release.
ghost use Rattle.std.specs.Prelude.{◌≡◌};
ghost use Rattle.input_releases.specs.Losses.{disconnect_report, routed_disconnect, loss_report, suspended_loss, routed_loss};

use crate::answer::{PlatformInputRoutingReport, RouteKind, Routed, no_report, refused};
use composition_input::captures::release_device_pointer_captures;
use composition_input::focus::suspend_view_input;
use composition_state::registry::CompositionRegistry;
use handles::GenerationalHandle;
use input_router::router::PlatformInputRouter;
use maps::keys::InputDeviceId;
use records::view::ViewInputState;
use release_lists::releases::{Releases, add_captures, add_view_captures};

fn disconnect_report(releases: Releases, revision: u64) -> PlatformInputRoutingReport
    ensures { result ≡ disconnect_report releases revision }
{
    PlatformInputRoutingReport {
        kind: RouteKind::Disconnected,
        synthesized_releases: releases,
        composition_revision: revision,
        ..no_report()
    }
}

// A disconnect that the registry refuses has dropped its presses unlisted, and keeps the device's sequence.
#[tactic(auto, unfolding(crate::specs::Losses::routed_disconnect))]
pub fn route_disconnect(
    registry: CompositionRegistry,
    router: PlatformInputRouter,
    device: InputDeviceId,
) -> Routed
    ensures { result ≡ routed_disconnect registry router device }
{
    let presses = router.device_presses(device);
    let released = release_device_pointer_captures(registry, device.value, device.generation);
    match released.outcome {
        Ok(captures) => Routed {
            outcome: Ok(disconnect_report(
                add_captures(presses, captures),
                released.registry.revision,
            )),
            registry: released.registry,
            router: router.without_device(device),
        },
        Err(error) => refused(
            error.into(),
            released.registry,
            router.without_device_presses(device),
        ),
    }
}

fn loss_report(
    releases: Releases,
    state: ViewInputState,
    revision: u64,
) -> PlatformInputRoutingReport
    ensures { result ≡ loss_report releases state revision }
{
    PlatformInputRoutingReport {
        kind: RouteKind::ViewReleased,
        synthesized_releases: releases,
        view_release: Some(state),
        composition_revision: revision,
        ..no_report()
    }
}

// The view's input is suspended once its presses are dropped.
#[tactic(auto, unfolding(crate::specs::Losses::suspended_loss))]
fn suspend_lost(
    registry: CompositionRegistry,
    router: PlatformInputRouter,
    view: GenerationalHandle,
    releases: Releases,
) -> Routed
    ensures { result ≡ suspended_loss registry router view releases }
{
    let suspended = suspend_view_input(registry, view, registry.revision);
    match suspended.outcome {
        Ok(state) => Routed {
            outcome: Ok(loss_report(releases, state, suspended.registry.revision)),
            registry: suspended.registry,
            router,
        },
        Err(error) => refused(error.into(), suspended.registry, router),
    }
}

// A loss that meets a closed owner has dropped the kinds before it.
#[tactic(auto, unfolding(crate::specs::Losses::routed_loss))]
pub fn route_loss(
    registry: CompositionRegistry,
    router: PlatformInputRouter,
    view: GenerationalHandle,
) -> Routed
    ensures { result ≡ routed_loss registry router view }
{
    let captures = registry.views.record(view).pointer_captures;
    let released = router.release_view(registry.surfaces, view);
    match released.outcome {
        Ok(presses) => suspend_lost(
            registry,
            released.router,
            view,
            add_view_captures(presses, captures),
        ),
        Err(error) => refused(error.into(), registry, released.router),
    }
}
