// Each call that alters nothing.
ghost use Rattle.std.specs.Prelude.{◌≡◌};
ghost use Rattle.read_step.specs.Reads.{counts_of, hit_read, local_read, counts_step, router_damage, open_step, read_step};

use calls::arguments::{HitTestArguments, InversePointArguments};
use calls::call::ReadCall;
use calls::shown::{Counts, Shown};
use composition_hits::stack::hit_test_refusal;
use composition_reads::{
    live_surface_count, live_view_count, live_window_count, revision, session, session_epoch,
    surface_descriptor, view_input_state, view_layers, view_metrics, view_pointer_captures,
    view_window,
};
use composition_state::registry::CompositionRegistry;
use geometry::transform::Point;
use input_router::router::PlatformInputRouter;
use records::error::{CompositionError, Outcome, refuse_if};

// The hits themselves are found where they are written.
fn read_hits(
    registry: CompositionRegistry,
    given: HitTestArguments,
) -> Result<Shown, CompositionError>
    ensures { result ≡ hit_read registry given }
{
    hit_test_refusal(registry, given.view, given.length as usize)?;
    Ok(Shown::Hits(given))
}

fn read_local(given: InversePointArguments) -> Shown
    ensures { result ≡ local_read given }
{
    let Point { x_milli, y_milli } = given.point;
    Shown::Local(given.transform.inverse_point(x_milli, y_milli))
}

fn count(registry: CompositionRegistry) -> Counts
    ensures { result ≡ counts_of registry }
{
    Counts {
        session: session(registry),
        session_epoch: session_epoch(registry),
        revision: revision(registry),
        windows: live_window_count(registry),
        views: live_view_count(registry),
        surfaces: live_surface_count(registry),
    }
}

fn read_counts(registry: CompositionRegistry) -> Result<Shown, CompositionError>
    ensures { result ≡ counts_step registry }
{
    registry.damage()?;
    Ok(Shown::Counts(count(registry)))
}

// A damaged router is refused 42, as a damaged registry is.
fn router_damage(router: PlatformInputRouter) -> Outcome
    ensures { result ≡ router_damage router }
{
    refuse_if(!router.is_sound(), CompositionError::Damaged)
}

fn read_open_presses(router: PlatformInputRouter) -> Result<Shown, CompositionError>
    ensures { result ≡ open_step router }
{
    router_damage(router)?;
    Ok(Shown::BindingCount(router.active_binding_count() as u64))
}

// What a call that alters nothing shows, or its refusal.
#[tactic(auto, unfolding(crate::specs::Reads::read_step))]
pub fn read_step(
    registry: CompositionRegistry,
    router: PlatformInputRouter,
    call: ReadCall,
) -> Result<Shown, CompositionError>
    ensures { result ≡ read_step registry router call }
{
    match call {
        ReadCall::ViewWindow(view) => Ok(Shown::Window(view_window(registry, view)?)),
        ReadCall::ViewMetrics(view) => Ok(Shown::Metrics(view_metrics(registry, view)?)),
        ReadCall::ViewInputState(view) => Ok(Shown::InputState(view_input_state(registry, view)?)),
        ReadCall::ViewPointerCaptures(view) => {
            view_pointer_captures(registry, view)?;
            Ok(Shown::Captures(view))
        }
        ReadCall::SurfaceDescriptor(surface) => {
            Ok(Shown::Descriptor(surface_descriptor(registry, surface)?))
        }
        ReadCall::ViewLayers(view) => {
            view_layers(registry, view)?;
            Ok(Shown::Layers(view))
        }
        ReadCall::Traces => {
            registry.damage()?;
            Ok(Shown::Traces)
        }
        ReadCall::Counts => read_counts(registry),
        ReadCall::ActiveBindingCount => read_open_presses(router),
        ReadCall::HitTestStack(given) => read_hits(registry, given),
        ReadCall::InversePoint(given) => Ok(read_local(given)),
    }
}
