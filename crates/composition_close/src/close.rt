// The close of a panel.
ghost use Rattle.std.specs.Prelude.{◌≡◌};
ghost use Rattle.composition_close.specs.Close.{close_refusal, detached, freed, close_surface};

use crate::answer::SurfaceClosed;
use crate::detach::{close_report, detached_view};
use composition_panels::answer::refuse_exhausted;
use composition_state::registry::{Answered, CompositionRegistry};
use handles::GenerationalHandle;
use records::error::Outcome;
use records::shortcut::shortcuts_without;

// The refusals that leave the registry as it came.
fn close_refusal(registry: CompositionRegistry, surface: GenerationalHandle) -> Outcome
    ensures { result ≡ close_refusal registry surface }
{
    registry.damage()?;
    registry.surfaces.refusal(surface)?;
    registry
        .views
        .refusal(registry.surfaces.descriptor(surface).view)
}

// The registry with the panel out of its view.
#[tactic(auto, unfolding(crate::specs::Close::detached))]
pub fn detach(registry: CompositionRegistry, surface: GenerationalHandle) -> CompositionRegistry
    ensures { result ≡ detached surface registry }
{
    let owner = registry.surfaces.descriptor(surface).view;
    let view = detached_view(registry.surfaces, registry.views.record(owner), surface);
    registry.with_views(registry.views.with_record(owner, view))
}

// The registry with the panel's slot released and its registrations dropped.
#[tactic(auto, unfolding(crate::specs::Close::freed))]
pub fn free_slot(registry: CompositionRegistry, surface: GenerationalHandle) -> CompositionRegistry
    ensures { result ≡ freed surface registry }
{
    let release = handles::arena::release(registry.surfaces.arena, surface);
    registry
        .with_surfaces(registry.surfaces.with_arena(release.arena))
        .with_shortcuts(shortcuts_without(registry.shortcuts, surface.index))
}

// A panel at its last generation is refused only after it has left its view, as in the Rust.
#[tactic(auto, unfolding(crate::specs::Close::close_surface))]
pub fn close_surface(registry: CompositionRegistry, surface: GenerationalHandle) -> SurfaceClosed
    ensures { result ≡ close_surface registry surface }
{
    if let Err(error) = close_refusal(registry, surface) {
        return Answered {
            outcome: Err(error),
            registry,
        };
    }
    let release = handles::arena::release(registry.surfaces.arena, surface);
    let left = detach(registry, surface);
    let changed = left.settle(refuse_exhausted(release.outcome), free_slot(left, surface));
    Answered::with(
        close_report(
            registry.surfaces,
            registry.views,
            surface,
            changed.registry.revision,
        ),
        changed,
    )
}
