// Views: create and close.
ghost use Rattle.std.specs.Prelude.{◌≡◌};
ghost use Rattle.composition_panels.specs.Windows.{create_view_refusal, create_view, has_layers, close_view_refusal, close_view};

use crate::answer::{Created, refuse_exhausted};
use composition_state::registry::{Answered, Changed, CompositionRegistry, window_refusal};
use handles::GenerationalHandle;
use handles::arena::{allocate, release};
use records::error::{CompositionError, Outcome, refuse_if};
use records::view::{ViewRecord, ViewTable};

fn create_view_refusal(registry: CompositionRegistry, window: GenerationalHandle) -> Outcome
    ensures { result ≡ create_view_refusal registry window }
{
    registry.damage()?;
    window_refusal(registry.windows, window)?;
    let live = registry.views.arena.live as u64;
    refuse_if(
        live == registry.limits.max_views,
        CompositionError::Capacity,
    )
}

// A new view in a window.
#[tactic(auto, unfolding(crate::specs::Windows::create_view))]
pub fn create_view(registry: CompositionRegistry, window: GenerationalHandle) -> Created
    ensures { result ≡ create_view registry window }
{
    let refusal = create_view_refusal(registry, window);
    let made = allocate(registry.views.arena, registry.first_generation);
    let views = registry
        .views
        .with_arena(made.arena)
        .with_record(made.handle, ViewRecord::new(window));
    Answered::with(
        made.handle,
        registry.settle(refusal, registry.with_views(views)),
    )
}

fn has_layers(views: ViewTable, view: GenerationalHandle) -> bool
    ensures { result ≡ has_layers views view }
{
    views.record(view).surfaces.count() != 0
}

fn close_view_refusal(registry: CompositionRegistry, view: GenerationalHandle) -> Outcome
    ensures { result ≡ close_view_refusal registry view }
{
    registry.damage()?;
    registry.views.refusal(view)?;
    refuse_if(
        has_layers(registry.views, view),
        CompositionError::ViewInUse,
    )?;
    refuse_exhausted(release(registry.views.arena, view).outcome)
}

// A view without panels ends.
#[tactic(auto, unfolding(crate::specs::Windows::close_view))]
pub fn close_view(registry: CompositionRegistry, view: GenerationalHandle) -> Changed
    ensures { result ≡ close_view registry view }
{
    let refusal = close_view_refusal(registry, view);
    let arena = release(registry.views.arena, view).arena;
    registry.settle(
        refusal,
        registry.with_views(registry.views.with_arena(arena)),
    )
}
