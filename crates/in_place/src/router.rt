// `route`, `release_surface` and `release_all` on a lent router: the host's router is one object, altered in place by
// each event.
ghost use Rattle.in_place.specs.EntryContracts.{RouteInPlace, ReleaseSurfaceInPlace, ReleaseAllInPlace};

use composition_state::registry::CompositionRegistry;
use handles::GenerationalHandle;
use input_events::error::PlatformInputError;
use input_events::event::PlatformInputEvent;
use input_releases::answer::PlatformInputRoutingReport;
use input_router::router::PlatformInputRouter;
use release_lists::releases::Releases;

// What an event reports, or why it is refused.
pub type RouteAnswer = Result<PlatformInputRoutingReport, PlatformInputError>;

// What a router release lists, or 42 of a damaged router.
pub type ReleaseAnswer = Result<Releases, PlatformInputError>;

// One event, routed on a lent registry and a lent router.
pub fn route(
    registry: &mut CompositionRegistry,
    router: &mut PlatformInputRouter,
    event: PlatformInputEvent,
) -> RouteAnswer
    ensures { RouteInPlace registry.old router.old event
        registry.new router.new result }
{
    let done = input_route::route::route(*registry, *router, event);
    *registry = done.registry;
    *router = done.router;
    done.outcome
}

// Ends the presses of a panel in a lent router.
pub fn release_surface(
    router: &mut PlatformInputRouter,
    surface: GenerationalHandle,
) -> ReleaseAnswer
    ensures { ReleaseSurfaceInPlace router.old surface router.new result }
{
    let done = router.release_surface(surface);
    *router = done.router;
    done.outcome
}

// Ends all presses in a lent router and forgets sequences and the time.
pub fn release_all(router: &mut PlatformInputRouter) -> ReleaseAnswer
    ensures { ReleaseAllInPlace router.old router.new result }
{
    let done = router.release_all();
    *router = done.router;
    done.outcome
}
