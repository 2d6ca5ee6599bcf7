// What an event asks the registry to arbitrate, and which events are not arbitrated.
ghost use Rattle.std.specs.Prelude.{◌≡◌};
ghost use Rattle.input_events.specs.ArbitrationEvents.{pointer_event, key_event, shortcut_event, gamepad_event, arbitration_event_in, arbitration_event, is_aimed, needs_hits, pointer_point, wheel_point, no_point, point_of, is_loss, is_disconnect};

use crate::event::{
    GamepadInput, KeyPhase, PlatformInputEvent, PlatformInputPayload, PointerInput, PointerPhase,
    ShortcutInput, WheelInput,
};
use crate::presses::pointer_of;
use geometry::transform::Point;
use handles::GenerationalHandle;
use maps::keys::{CompositionPointerId, InputDeviceId};
use records::trace::ArbitrationEvent;

fn pointer_event(
    phase: PointerPhase,
    pointer: CompositionPointerId,
    held: Option<GenerationalHandle>,
) -> ArbitrationEvent
    ensures { result ≡ pointer_event phase pointer held }
{
    match phase {
        PointerPhase::Down | PointerPhase::Move => ArbitrationEvent::PointerStackFor { pointer },
        PointerPhase::Up | PointerPhase::Cancel => {
            ArbitrationEvent::PointerFor { pointer, hit: held }
        }
    }
}

fn key_event(phase: KeyPhase, held: Option<GenerationalHandle>) -> ArbitrationEvent
    ensures { result ≡ key_event phase held }
{
    match phase {
        KeyPhase::Down => ArbitrationEvent::Keyboard,
        KeyPhase::Up => ArbitrationEvent::KeyboardFor { target: held },
    }
}

fn shortcut_event(shortcut: ShortcutInput) -> ArbitrationEvent
    ensures { result ≡ shortcut_event shortcut.system shortcut.class_mask }
{
    if shortcut.system {
        ArbitrationEvent::SystemShortcut {
            class_mask: shortcut.class_mask,
        }
    } else {
        ArbitrationEvent::Shortcut
    }
}

fn gamepad_event(gamepad: GamepadInput, held: Option<GenerationalHandle>) -> ArbitrationEvent
    ensures { result ≡ gamepad_event gamepad.connected held }
{
    if gamepad.connected {
        ArbitrationEvent::Gamepad
    } else {
        ArbitrationEvent::GamepadFor { target: held }
    }
}

#[tactic(auto, unfolding(crate::specs::ArbitrationEvents::arbitration_event_in))]
fn arbitration_event_in(
    device: InputDeviceId,
    payload: PlatformInputPayload,
    held: Option<GenerationalHandle>,
) -> ArbitrationEvent
    ensures { result ≡ arbitration_event_in device payload held }
{
    match payload {
        PlatformInputPayload::Pointer(pointer) => {
            pointer_event(pointer.phase, pointer_of(device, pointer.contact), held)
        }
        PlatformInputPayload::Wheel(wheel) => ArbitrationEvent::PointerStackFor {
            pointer: pointer_of(device, wheel.contact),
        },
        PlatformInputPayload::Key(key) => key_event(key.phase, held),
        PlatformInputPayload::Shortcut(shortcut) => shortcut_event(shortcut),
        PlatformInputPayload::Text(_) | PlatformInputPayload::Composition(_) => {
            ArbitrationEvent::Text
        }
        PlatformInputPayload::GamepadSnapshot(gamepad) => gamepad_event(gamepad, held),
        PlatformInputPayload::FocusChanged(_)
        | PlatformInputPayload::VisibilityChanged(_)
        | PlatformInputPayload::DeviceDisconnected => ArbitrationEvent::Keyboard,
    }
}

// What an event asks the registry to arbitrate, with the panel that holds its press. A disconnect is never arbitrated.
pub fn arbitration_event(
    event: PlatformInputEvent,
    held: Option<GenerationalHandle>,
) -> ArbitrationEvent
    ensures { result ≡ arbitration_event event held }
{
    arbitration_event_in(event.header.device, event.payload, held)
}

fn is_aimed(phase: PointerPhase) -> bool
    ensures { result ≡ is_aimed phase }
{
    matches!(phase, PointerPhase::Down | PointerPhase::Move)
}

// Whether an event needs the hits at its point.
#[tactic(auto, unfolding(crate::specs::ArbitrationEvents::needs_hits))]
pub fn needs_hits(payload: PlatformInputPayload) -> bool
    ensures { result ≡ needs_hits payload }
{
    match payload {
        PlatformInputPayload::Pointer(pointer) => is_aimed(pointer.phase),
        PlatformInputPayload::Wheel(_) => true,
        PlatformInputPayload::Key(_)
        | PlatformInputPayload::Shortcut(_)
        | PlatformInputPayload::Text(_)
        | PlatformInputPayload::Composition(_)
        | PlatformInputPayload::GamepadSnapshot(_)
        | PlatformInputPayload::FocusChanged(_)
        | PlatformInputPayload::VisibilityChanged(_)
        | PlatformInputPayload::DeviceDisconnected => false,
    }
}

fn pointer_point(pointer: PointerInput) -> Point
    ensures { result ≡ pointer_point pointer }
{
    Point {
        x_milli: pointer.x_milli,
        y_milli: pointer.y_milli,
    }
}

fn wheel_point(wheel: WheelInput) -> Point
    ensures { result ≡ wheel_point wheel }
{
    Point {
        x_milli: wheel.x_milli,
        y_milli: wheel.y_milli,
    }
}

fn no_point() -> Point
    ensures { result ≡ no_point }
{
    Point {
        x_milli: 0,
        y_milli: 0,
    }
}

// The point of an event, in thousandths; of an event that has none, the corner of its view.
#[tactic(auto, unfolding(crate::specs::ArbitrationEvents::point_of))]
pub fn point_of(payload: PlatformInputPayload) -> Point
    ensures { result ≡ point_of payload }
{
    match payload {
        PlatformInputPayload::Pointer(pointer) => pointer_point(pointer),
        PlatformInputPayload::Wheel(wheel) => wheel_point(wheel),
        PlatformInputPayload::Key(_)
        | PlatformInputPayload::Shortcut(_)
        | PlatformInputPayload::Text(_)
        | PlatformInputPayload::Composition(_)
        | PlatformInputPayload::GamepadSnapshot(_)
        | PlatformInputPayload::FocusChanged(_)
        | PlatformInputPayload::VisibilityChanged(_)
        | PlatformInputPayload::DeviceDisconnected => no_point(),
    }
}

// Whether an event is its view's loss of focus or visibility.
#[tactic(auto, unfolding(crate::specs::ArbitrationEvents::is_loss))]
pub fn is_loss(payload: PlatformInputPayload) -> bool
    ensures { result ≡ is_loss payload }
{
    match payload {
        PlatformInputPayload::FocusChanged(kept) | PlatformInputPayload::VisibilityChanged(kept) =>
            { !kept }
        PlatformInputPayload::Pointer(_)
        | PlatformInputPayload::Wheel(_)
        | PlatformInputPayload::Key(_)
        | PlatformInputPayload::Shortcut(_)
        | PlatformInputPayload::Text(_)
        | PlatformInputPayload::Composition(_)
        | PlatformInputPayload::GamepadSnapshot(_)
        | PlatformInputPayload::DeviceDisconnected => false,
    }
}

// Whether an event is its device's disconnect.
#[tactic(auto, unfolding(crate::specs::ArbitrationEvents::is_disconnect))]
pub fn is_disconnect(payload: PlatformInputPayload) -> bool
    ensures { result ≡ is_disconnect payload }
{
    matches!(payload, PlatformInputPayload::DeviceDisconnected)
}
