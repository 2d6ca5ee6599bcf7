// Which panels an event is meant for.
ghost use Rattle.std.specs.Prelude.{◌≡◌};
ghost use Rattle.lists.specs.Tables.{entries_of};
ghost use Rattle.records.specs.Traces.{hits as state_hits};
ghost use Rattle.composition_arbitration.specs.Targets.{is_among, capture_or, chosen, is_targeted};

use handles::GenerationalHandle;
use records::trace::{ArbitrationEvent, Hits};
use records::view::ViewRecord;

// What chooses the targets of an event; the hits of a stack stand beside it.
#[derive(Clone, Copy)]
pub enum Choice {
    Captured(GenerationalHandle),
    Hit(Option<GenerationalHandle>),
    HitStack,
    Focused(Option<GenerationalHandle>),
    FocusedText(Option<GenerationalHandle>),
    Given(Option<GenerationalHandle>),
}

fn is_among(hits: Hits, surface: GenerationalHandle) -> bool
    ensures { result ≡ is_among surface (entries_of state_hits hits) }
{
    hits.entries().iter().any(|hit| *hit == surface)
}

// A pointer's capture is its only target.
fn capture_or(capture: Option<GenerationalHandle>, otherwise: Choice) -> Choice
    ensures { result ≡ capture_or capture otherwise }
{
    match capture {
        None => otherwise,
        Some(surface) => Choice::Captured(surface),
    }
}

#[tactic(auto, unfolding(crate::specs::Targets::chosen))]
pub fn choose(event: ArbitrationEvent, view: ViewRecord) -> Choice
    ensures { result ≡ chosen event view }
{
    match event {
        ArbitrationEvent::Pointer { hit } => capture_or(view.pointer_capture, Choice::Hit(hit)),
        ArbitrationEvent::PointerStack => capture_or(view.pointer_capture, Choice::HitStack),
        ArbitrationEvent::PointerFor { pointer, hit } => {
            capture_or(view.pointer_captures.get(pointer), Choice::Hit(hit))
        }
        ArbitrationEvent::PointerStackFor { pointer } => {
            capture_or(view.pointer_captures.get(pointer), Choice::HitStack)
        }
        ArbitrationEvent::KeyboardFor { target } | ArbitrationEvent::GamepadFor { target } => {
            Choice::Given(target)
        }
        ArbitrationEvent::Text => Choice::FocusedText(view.focus),
        ArbitrationEvent::Keyboard
        | ArbitrationEvent::Gamepad
        | ArbitrationEvent::Shortcut
        | ArbitrationEvent::SystemShortcut { .. } => Choice::Focused(view.focus),
    }
}

// Whether a panel is a target.
#[tactic(auto, unfolding(crate::specs::Targets::is_targeted))]
pub fn is_targeted(
    choice: Choice,
    hits: Hits,
    surface: GenerationalHandle,
    accepts_text: bool,
) -> bool
    ensures { result ≡ is_targeted choice (entries_of state_hits hits) surface accepts_text }
{
    match choice {
        Choice::Captured(owner) => owner == surface,
        Choice::HitStack => is_among(hits, surface),
        Choice::FocusedText(focus) => focus == Some(surface) && accepts_text,
        Choice::Hit(target) | Choice::Focused(target) | Choice::Given(target) => {
            target == Some(surface)
        }
    }
}
