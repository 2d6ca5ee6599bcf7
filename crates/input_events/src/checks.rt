// What an event is refused for before the router's own state is asked.
ghost use Rattle.std.specs.Prelude.{◌≡◌};
ghost use Rattle.input_events.specs.Checks.{contact_refusal, is_tilt_allowed, pointer_refusal, selection_refusal, shortcut_refusal, payload_refusal, device_refusal, found_view, window_refusal, metrics_refusal, header_refusal_in, event_refusal_in, event_refusal};

use crate::error::{PlatformInputError, RouterOutcome};
use crate::event::{
    CompositionInput, PlatformInputEvent, PlatformInputHeader, PlatformInputPayload, PointerInput,
    ShortcutInput,
};
use handles::GenerationalHandle;
use maps::keys::InputDeviceId;
use records::error::{CompositionError, Outcome, refuse_if};
use records::view::ViewTable;

fn contact_refusal(contact: u32) -> RouterOutcome
    ensures { result ≡ contact_refusal contact }
{
    refuse_if(contact == 4294967295, PlatformInputError::InvalidPointer)
}

fn is_tilt_allowed(pointer: PointerInput) -> bool
    ensures { result ≡ is_tilt_allowed pointer }
{
    pointer.tilt_x_degrees >= -90
        && pointer.tilt_x_degrees <= 90
        && pointer.tilt_y_degrees >= -90
        && pointer.tilt_y_degrees <= 90
}

fn pointer_refusal(pointer: PointerInput) -> RouterOutcome
    ensures { result ≡ pointer_refusal pointer }
{
    contact_refusal(pointer.contact)?;
    refuse_if(
        pointer.pressure_q15 > 32768,
        PlatformInputError::InvalidPressure,
    )?;
    refuse_if(!is_tilt_allowed(pointer), PlatformInputError::InvalidTilt)
}

fn selection_refusal(composition: CompositionInput) -> RouterOutcome
    ensures { result ≡ selection_refusal composition }
{
    refuse_if(
        composition.selection_start > composition.selection_end
            || composition.selection_end > composition.length,
        PlatformInputError::InvalidTextSelection,
    )
}

fn shortcut_refusal(shortcut: ShortcutInput) -> RouterOutcome
    ensures { result ≡ shortcut_refusal shortcut }
{
    refuse_if(
        shortcut.class_mask == 0,
        PlatformInputError::InvalidShortcut,
    )
}

// What a payload is refused for.
#[tactic(auto, unfolding(crate::specs::Checks::payload_refusal))]
pub fn payload_refusal(payload: PlatformInputPayload) -> RouterOutcome
    ensures { result ≡ payload_refusal payload }
{
    match payload {
        PlatformInputPayload::Pointer(pointer) => pointer_refusal(pointer),
        PlatformInputPayload::Wheel(wheel) => contact_refusal(wheel.contact),
        PlatformInputPayload::Shortcut(shortcut) => shortcut_refusal(shortcut),
        PlatformInputPayload::Composition(composition) => selection_refusal(composition),
        PlatformInputPayload::Key(_)
        | PlatformInputPayload::Text(_)
        | PlatformInputPayload::GamepadSnapshot(_)
        | PlatformInputPayload::FocusChanged(_)
        | PlatformInputPayload::VisibilityChanged(_)
        | PlatformInputPayload::DeviceDisconnected => Ok(()),
    }
}

pub fn device_refusal(device: InputDeviceId) -> RouterOutcome
    ensures { result ≡ device_refusal device }
{
    refuse_if(!device.is_valid(), PlatformInputError::InvalidDevice)
}

// What is found of a header's view: why it is no live view, if so, its window and the revision of its metrics. No
// Result: the refusal comes after others in the order of checks, and the rest is read of any slot.
#[derive(Clone, Copy)]
pub struct FoundView {
    pub unknown: Outcome,
    pub window: GenerationalHandle,
    pub metrics_revision: u64,
}

// Looks a view up in its table.
pub fn find_view(views: ViewTable, view: GenerationalHandle) -> FoundView
    ensures { result ≡ found_view views view }
{
    let record = views.record(view);
    FoundView {
        unknown: views.refusal(view),
        window: record.window,
        metrics_revision: record.metrics.revision,
    }
}

fn window_refusal(found: FoundView, header: PlatformInputHeader) -> RouterOutcome
    ensures { result ≡ window_refusal found header }
{
    refuse_if(
        found.window != header.window,
        PlatformInputError::InvalidWindow,
    )
}

fn metrics_refusal(found: FoundView, header: PlatformInputHeader) -> RouterOutcome
    ensures { result ≡ metrics_refusal found header }
{
    refuse_if(
        found.metrics_revision != header.metrics_revision,
        PlatformInputError::Composition(CompositionError::RevisionConflict),
    )
}

// What a header is refused for: its view, the window of that view, and the revision of its metrics.
#[tactic(auto, unfolding(crate::specs::Checks::header_refusal_in))]
pub fn header_refusal_in(found: FoundView, header: PlatformInputHeader) -> RouterOutcome
    ensures { result ≡ header_refusal_in found header }
{
    found.unknown?;
    window_refusal(found, header)?;
    metrics_refusal(found, header)
}

// What an event is refused for, by what is found of its view and whatever the router holds.
pub fn event_refusal_in(found: FoundView, event: PlatformInputEvent) -> RouterOutcome
    ensures { result ≡ event_refusal_in found event }
{
    device_refusal(event.header.device)?;
    header_refusal_in(found, event.header)?;
    payload_refusal(event.payload)
}

// The same with the table of views.
#[tactic(auto, unfolding(crate::specs::Checks::event_refusal))]
pub fn event_refusal(views: ViewTable, event: PlatformInputEvent) -> RouterOutcome
    ensures { result ≡ event_refusal views event }
{
    event_refusal_in(find_view(views, event.header.view), event)
}
