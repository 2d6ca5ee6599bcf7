// The calls on the registry alone that list nothing: windows, views and panels, focus and captures, shortcuts.
ghost use Rattle.std.specs.Prelude.{◌≡◌};
ghost use Rattle.registry_step.specs.Steps.{metrics_shown, state_shown, of_changed, of_created, of_metrics, of_suspended, panel_step, input_step, shortcut_step};

use calls::call::{InputCall, PanelCall, ShortcutCall};
use calls::shown::Shown;
use composition_input::answer::Suspended;
use composition_input::captures::{
    capture_pointer, capture_pointer_for, release_pointer, release_pointer_for,
};
use composition_input::focus::{begin_ime, end_ime, set_focus, suspend_view_input};
use composition_panels::answer::{Created, MetricsUpdated};
use composition_panels::metrics::update_view_metrics;
use composition_panels::panels::{
    attach_surface, update_surface_geometry, update_surface_input_policy,
};
use composition_panels::views::{close_view, create_view};
use composition_panels::windows::{close_window, create_window};
use composition_shortcuts::register::{
    Registrations, register_surface_system_shortcut_set, register_surface_system_shortcuts,
    set_surface_system_shortcuts,
};
use composition_state::registry::{Changed, CompositionRegistry};
use geometry::metrics::ViewMetrics;
use handles::GenerationalHandle;
use records::error::Outcome;
use records::view::ViewInputState;

// What such a call answers, and the registry after it. What a call does not answer is `None` or `Nothing`; `step` hands
// these parts on side by side, so no enum has them.
#[derive(Clone, Copy)]
pub struct RegistryStepped {
    pub outcome: Outcome,
    pub handle: Option<GenerationalHandle>,
    pub shown: Shown,
    pub registry: CompositionRegistry,
}

// The metrics that an update made.
fn metrics_shown(metrics: Option<ViewMetrics>) -> Shown
    ensures { result ≡ metrics_shown metrics }
{
    metrics.map_or(Shown::Nothing, Shown::Metrics)
}

// What a suspend let go.
fn state_shown(state: Option<ViewInputState>) -> Shown
    ensures { result ≡ state_shown state }
{
    state.map_or(Shown::Nothing, Shown::InputState)
}

fn of_changed(changed: Changed) -> RegistryStepped
    ensures { result ≡ of_changed changed }
{
    RegistryStepped {
        outcome: changed.outcome,
        handle: None,
        shown: Shown::Nothing,
        registry: changed.registry,
    }
}

fn of_created(created: Created) -> RegistryStepped
    ensures { result ≡ of_created created }
{
    RegistryStepped {
        outcome: created.refusal(),
        handle: created.outcome.ok(),
        shown: Shown::Nothing,
        registry: created.registry,
    }
}

fn of_metrics(updated: MetricsUpdated) -> RegistryStepped
    ensures { result ≡ of_metrics updated }
{
    RegistryStepped {
        outcome: updated.refusal(),
        handle: None,
        shown: metrics_shown(updated.outcome.ok()),
        registry: updated.registry,
    }
}

fn of_suspended(suspended: Suspended) -> RegistryStepped
    ensures { result ≡ of_suspended suspended }
{
    RegistryStepped {
        outcome: suspended.refusal(),
        handle: None,
        shown: state_shown(suspended.outcome.ok()),
        registry: suspended.registry,
    }
}

#[tactic(auto, unfolding(crate::specs::Steps::panel_step))]
pub fn panel_step(registry: CompositionRegistry, call: PanelCall) -> RegistryStepped
    ensures { result ≡ panel_step registry call }
{
    // Each arm returns: a registry in which arms join is written and copied once more.
    match call {
        PanelCall::CreateWindow => {
            return of_created(create_window(registry));
        }
        PanelCall::CloseWindow(window) => {
            return of_changed(close_window(registry, window));
        }
        PanelCall::CreateView(window) => {
            return of_created(create_view(registry, window));
        }
        PanelCall::UpdateViewMetrics(given) => {
            return of_metrics(update_view_metrics(
                registry,
                given.view,
                given.update,
                given.revision,
            ));
        }
        PanelCall::CloseView(view) => {
            return of_changed(close_view(registry, view));
        }
        PanelCall::AttachSurface(descriptor) => {
            return of_created(attach_surface(registry, descriptor));
        }
        PanelCall::UpdateSurfaceGeometry(given) => {
            return of_changed(update_surface_geometry(
                registry,
                given.surface,
                given.geometry,
                given.revision,
            ));
        }
        PanelCall::UpdateSurfaceInputPolicy(given) => {
            return of_changed(update_surface_input_policy(
                registry,
                given.surface,
                given.input,
                given.revision,
            ));
        }
    }
}

// One changed registry for all cases: each local of its size makes the check longer.
#[tactic(auto, unfolding(crate::specs::Steps::input_step))]
pub fn input_step(registry: CompositionRegistry, call: InputCall) -> RegistryStepped
    ensures { result ≡ input_step registry call }
{
    let changed = match call {
        InputCall::SetFocus(given) => set_focus(
            registry,
            given.view,
            given.surface,
            given.revision,
        ),
        InputCall::CapturePointer(given) => capture_pointer(registry, given.handle, given.revision),
        InputCall::CapturePointerFor(given) => capture_pointer_for(
            registry,
            given.pointer,
            given.surface,
            given.revision,
        ),
        InputCall::ReleasePointer(given) => release_pointer(registry, given.handle, given.revision),
        InputCall::ReleasePointerFor(given) => release_pointer_for(
            registry,
            given.pointer,
            given.surface,
            given.revision,
        ),
        InputCall::BeginIme(given) => begin_ime(registry, given.handle, given.revision),
        InputCall::EndIme(given) => end_ime(registry, given.handle, given.revision),
        InputCall::SuspendViewInput(given) => {
            return of_suspended(suspend_view_input(registry, given.handle, given.revision));
        }
    };
    of_changed(changed)
}

#[tactic(auto, unfolding(crate::specs::Steps::shortcut_step))]
pub fn shortcut_step(
    registry: CompositionRegistry,
    call: ShortcutCall,
    registrations: Registrations,
) -> RegistryStepped
    ensures { result ≡ shortcut_step registry call registrations }
{
    let changed = match call {
        ShortcutCall::RegisterSet(given) => register_surface_system_shortcut_set(
            registry,
            given.handle,
            registrations,
            given.revision,
        ),
        ShortcutCall::RegisterOne(given) => register_surface_system_shortcuts(
            registry,
            given.surface,
            given.registration,
            given.revision,
        ),
        ShortcutCall::SetMask(given) => set_surface_system_shortcuts(
            registry,
            given.surface,
            given.class_mask,
            given.revision,
        ),
    };
    of_changed(changed)
}
