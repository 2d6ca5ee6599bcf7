// The shutdown: every view with its panels, then every window.
ghost use Rattle.std.specs.Prelude.{◌≡◌, reverse, ◌+◌, ◌≤◌, ◌<◌};
ghost use Rattle.lists.specs.Tables.{entries_of};
ghost use Rattle.records.specs.Layers.{layers};
ghost use Rattle.composition_close.specs.Shutdown.{is_over, shutdown_refusal, layer_closed, layers_closed, view_closed, view_closed_at, views_closed, window_closed_at, windows_closed, shut_down, shutdown_of};

use crate::answer::{CloseReports, CompositionShutdownReport, Shutdown};
use crate::close::{detach, free_slot};
use crate::detach::close_report;
use composition_state::registry::{Answered, CompositionRegistry};
use handles::GenerationalHandle;
use handles::arena::{live_handles, preflight_release, used_places};
use records::error::{CompositionError, Outcome, refuse_if};
use records::layers::Layers;

// The work so far: the registry, and the reports of the panels that are closed.
#[derive(Clone, Copy)]
pub struct Closing {
    pub registry: CompositionRegistry,
    pub reports: CloseReports,
}

// Whether the revision has no room for one step each.
fn is_over(revision: u64, surfaces: usize, views: usize, windows: usize) -> bool
    ensures { result ≡ is_over revision surfaces views windows }
{
    let steps = (surfaces as u64).checked_add(views as u64);
    let steps = steps.and_then(|sum| sum.checked_add(windows as u64));
    steps.and_then(|sum| revision.checked_add(sum)).is_none()
}

fn shutdown_refusal(registry: CompositionRegistry) -> Outcome
    ensures { result ≡ shutdown_refusal registry }
{
    registry.damage()?;
    refuse_if(
        is_over(
            registry.revision,
            registry.surfaces.arena.live,
            registry.views.arena.live,
            registry.windows.live,
        ),
        CompositionError::RevisionExhausted,
    )?;
    refuse_if(
        !preflight_release(registry.windows)
            || !preflight_release(registry.views.arena)
            || !preflight_release(registry.surfaces.arena),
        CompositionError::GenerationExhausted,
    )
}

#[tactic(auto, unfolding(crate::specs::Shutdown::layer_closed))]
fn close_layer(work: Closing, surface: GenerationalHandle) -> Closing
    requires { work.reports.len < 256 }
    ensures { result ≡ layer_closed surface work }
{
    let after = free_slot(detach(work.registry, surface), surface)
        .advance()
        .registry;
    let report = close_report(
        work.registry.surfaces,
        work.registry.views,
        surface,
        after.revision,
    );
    Closing {
        registry: after,
        reports: work.reports.push(report),
    }
}

// The layers of a view, from the top: each turn takes the last of what is left, as the definition's list does.
#[tactic(auto, unfolding(crate::specs::Shutdown::layers_closed))]
fn close_layers(work: Closing, panels: Layers) -> Closing
    requires { work.reports.len + 16 ≤ 256 }
    ensures { (result ≡ layers_closed (reverse (entries_of layers panels)) work)
        × (result.reports.len ≤ work.reports.len + 16) }
{
    let mut done = work;
    let mut rest = panels.entries();
    while let Some((top, below)) = rest.split_last() {
        done = close_layer(done, *top);
        rest = below;
    }
    done
}

#[tactic(auto, unfolding(crate::specs::Shutdown::view_closed))]
fn release_view(registry: CompositionRegistry, view: GenerationalHandle) -> CompositionRegistry
    ensures { result ≡ view_closed view registry }
{
    let release = handles::arena::release(registry.views.arena, view);
    registry
        .with_views(registry.views.with_arena(release.arena))
        .advance()
        .registry
}

// The view of a slot: its panels, then the view itself.
#[tactic(auto, unfolding(crate::specs::Shutdown::whole_view_closed))]
fn close_view_at(work: Closing, i: usize) -> Closing
    requires i_bound { i < 16 }
    requires len_bound { work.reports.len + 16 ≤ 256 }
    ensures { (result ≡ view_closed_at i work) × (result.reports.len ≤ work.reports.len + 16) }
{
    let slot = work.registry.views.arena.slots[i];
    if !slot.filled {
        return work;
    }
    let view = GenerationalHandle {
        index: i as u32,
        generation: slot.generation,
    };
    let panels = work.registry.views.record(view).surfaces;
    let done = close_layers(work, panels);
    Closing {
        registry: release_view(done.registry, view),
        ..done
    }
}

#[tactic(auto, unfolding(crate::specs::Shutdown::views_closed))]
fn close_views(registry: CompositionRegistry) -> Closing
    ensures { result ≡ views_closed registry }
{
    let mut work = Closing {
        registry,
        reports: CloseReports::new(),
    };
    for i in 0..registry.views.slots() {
        work = close_view_at(work, i);
    }
    work
}

#[tactic(auto, unfolding(crate::specs::Shutdown::window_closed))]
fn close_window_at(registry: CompositionRegistry, i: usize) -> CompositionRegistry
    requires { i < 64 }
    ensures { result ≡ window_closed_at i registry }
{
    let slot = registry.windows.slots[i];
    if !slot.filled {
        return registry;
    }
    let window = GenerationalHandle {
        index: i as u32,
        generation: slot.generation,
    };
    let release = handles::arena::release(registry.windows, window);
    registry.with_windows(release.arena).advance().registry
}

#[tactic(auto, unfolding(crate::specs::Shutdown::windows_closed))]
fn close_windows(registry: CompositionRegistry) -> CompositionRegistry
    ensures { result ≡ windows_closed registry }
{
    let mut left = registry;
    for i in 0..used_places(registry.windows) {
        left = close_window_at(left, i);
    }
    left
}

#[tactic(auto, unfolding(crate::specs::Shutdown::shut_down))]
fn shut_down(registry: CompositionRegistry) -> Shutdown
    ensures { result ≡ shut_down registry }
{
    let work = close_views(registry);
    let after = close_windows(work.registry);
    Answered {
        outcome: Ok(CompositionShutdownReport {
            closed_surfaces: work.reports,
            closed_views: live_handles(registry.views.arena),
            closed_windows: live_handles(registry.windows),
            final_revision: after.revision,
        }),
        registry: after,
    }
}

// Its refusals come before any change, and after them no close can be refused.
#[tactic(auto, unfolding(crate::specs::Shutdown::shutdown_of))]
pub fn shutdown(registry: CompositionRegistry) -> Shutdown
    ensures { result ≡ shutdown_of registry }
{
    if let Err(error) = shutdown_refusal(registry) {
        return Answered {
            outcome: Err(error),
            registry,
        };
    }
    shut_down(registry)
}
