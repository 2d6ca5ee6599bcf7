// Focus, compositions of text, and the suspension of a view's input.
ghost use Rattle.std.specs.Prelude.{◌≡◌};
ghost use Rattle.composition_input.specs.Focus.{focus_target_refusal, focus_refusal, set_focus, begin_ime_refusal, begin_ime, end_ime_refusal, end_ime, suspend_refusal, suspended_view, suspend_view_input};

use crate::answer::Suspended;
use crate::refusal::{entry_refusal, with_view_record};
use composition_state::registry::{Answered, Changed, CompositionRegistry};
use handles::GenerationalHandle;
use maps::captures::PointerCaptures;
use records::error::{CompositionError, Outcome, refuse_if};
use records::surface::is_interactive;
use records::view::{ViewInputState, ViewRecord};

// What a panel that cannot take the focus of the view refuses; no panel is always taken.
fn focus_target_refusal(
    registry: CompositionRegistry,
    view: GenerationalHandle,
    target: Option<GenerationalHandle>,
) -> Outcome
    ensures { result ≡ focus_target_refusal registry view target }
{
    let Some(surface) = target else {
        return Ok(());
    };
    registry.surfaces.refusal(surface)?;
    let descriptor = registry.surfaces.descriptor(surface);
    refuse_if(descriptor.view != view, CompositionError::WrongView)?;
    refuse_if(
        !is_interactive(descriptor.input),
        CompositionError::NotInteractive,
    )
}

fn focus_refusal(
    registry: CompositionRegistry,
    view: GenerationalHandle,
    surface: Option<GenerationalHandle>,
    expected_revision: u64,
) -> Outcome
    ensures { result ≡ focus_refusal registry view surface expected_revision }
{
    entry_refusal(registry, expected_revision)?;
    focus_target_refusal(registry, view, surface)?;
    registry.views.refusal(view)
}

// The panel that keys and text of a view go to, or none.
#[tactic(auto, unfolding(crate::specs::Focus::set_focus))]
pub fn set_focus(
    registry: CompositionRegistry,
    view: GenerationalHandle,
    surface: Option<GenerationalHandle>,
    expected_revision: u64,
) -> Changed
    ensures { result ≡ set_focus registry view surface expected_revision }
{
    let refusal = focus_refusal(registry, view, surface, expected_revision);
    let record = registry.views.record(view).with_focus(surface);
    registry.settle(refusal, with_view_record(registry, view, record))
}

fn begin_ime_refusal(
    registry: CompositionRegistry,
    surface: GenerationalHandle,
    expected_revision: u64,
) -> Outcome
    ensures { result ≡ begin_ime_refusal registry surface expected_revision }
{
    entry_refusal(registry, expected_revision)?;
    registry.surfaces.refusal(surface)?;
    let descriptor = registry.surfaces.descriptor(surface);
    refuse_if(!descriptor.accepts_text, CompositionError::TextUnsupported)?;
    registry.views.refusal(descriptor.view)?;
    let focus = registry.views.record(descriptor.view).focus;
    refuse_if(focus != Some(surface), CompositionError::NotInteractive)
}

// A panel with the focus that accepts text starts a composition of text.
#[tactic(auto, unfolding(crate::specs::Focus::begin_ime))]
pub fn begin_ime(
    registry: CompositionRegistry,
    surface: GenerationalHandle,
    expected_revision: u64,
) -> Changed
    ensures { result ≡ begin_ime registry surface expected_revision }
{
    let view = registry.surfaces.descriptor(surface).view;
    let refusal = begin_ime_refusal(registry, surface, expected_revision);
    let begun = registry.views.record(view).with_ime(Some(surface));
    registry.settle(refusal, with_view_record(registry, view, begun))
}

fn end_ime_refusal(
    registry: CompositionRegistry,
    surface: GenerationalHandle,
    expected_revision: u64,
) -> Outcome
    ensures { result ≡ end_ime_refusal registry surface expected_revision }
{
    entry_refusal(registry, expected_revision)?;
    registry.surfaces.refusal(surface)?;
    let view = registry.surfaces.descriptor(surface).view;
    registry.views.refusal(view)?;
    let ime = registry.views.record(view).ime;
    refuse_if(ime != Some(surface), CompositionError::NotInteractive)
}

// A panel ends its composition of text.
#[tactic(auto, unfolding(crate::specs::Focus::end_ime))]
pub fn end_ime(
    registry: CompositionRegistry,
    surface: GenerationalHandle,
    expected_revision: u64,
) -> Changed
    ensures { result ≡ end_ime registry surface expected_revision }
{
    let view = registry.surfaces.descriptor(surface).view;
    let refusal = end_ime_refusal(registry, surface, expected_revision);
    let ended = registry.views.record(view).with_ime(None);
    registry.settle(refusal, with_view_record(registry, view, ended))
}

// A view with no focus, capture or composition.
fn suspended_view(view: ViewRecord) -> ViewRecord
    ensures { result ≡ suspended_view view }
{
    view.with_focus(None)
        .with_pointer_capture(None)
        .with_pointer_captures(PointerCaptures::new())
        .with_ime(None)
}

fn suspend_refusal(
    registry: CompositionRegistry,
    view: GenerationalHandle,
    expected_revision: u64,
) -> Outcome
    ensures { result ≡ suspend_refusal registry view expected_revision }
{
    entry_refusal(registry, expected_revision)?;
    registry.views.refusal(view)
}

// A view loses its focus, its captures and its composition; the answer says what was lost.
#[tactic(auto, unfolding(crate::specs::Focus::suspend_view_input))]
pub fn suspend_view_input(
    registry: CompositionRegistry,
    view: GenerationalHandle,
    expected_revision: u64,
) -> Suspended
    ensures { result ≡ suspend_view_input registry view expected_revision }
{
    let record = registry.views.record(view);
    let refusal = suspend_refusal(registry, view, expected_revision);
    Answered::with(
        record.input_state(),
        registry.settle(
            refusal,
            with_view_record(registry, view, suspended_view(record)),
        ),
    )
}
