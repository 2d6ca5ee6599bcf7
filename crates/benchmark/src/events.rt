// The events of the cases. All are of device 7.1, at the view's origin.
use crate::opening::Places;
use input_events::event::{
    InputDeviceKind, InputModifiers, PlatformInputEvent, PlatformInputHeader, PlatformInputPayload,
    PointerInput, PointerPhase,
};
use maps::keys::InputDeviceId;

// What one contact does again and again: it moves, or it presses and lifts in turn.
#[derive(Clone, Copy)]
pub enum Gesture {
    Moves,
    Presses,
}

// The phase of an event by its number: a press is an odd one.
pub fn phase_of(gesture: Gesture, sequence: u64) -> PointerPhase {
    match gesture {
        Gesture::Moves => PointerPhase::Move,
        Gesture::Presses if sequence % 2 == 0 => PointerPhase::Up,
        Gesture::Presses => PointerPhase::Down,
    }
}

// The time of an event is its sequence number.
fn event(places: Places, sequence: u64, payload: PlatformInputPayload) -> PlatformInputEvent {
    let Places { window, view } = places;
    let header = PlatformInputHeader {
        sequence,
        timestamp_micros: sequence,
        metrics_revision: 1,
        window,
        view,
        device: InputDeviceId {
            value: 7,
            generation: 1,
        },
        device_kind: InputDeviceKind::Touch,
        modifiers: InputModifiers {
            shift: false,
            control: false,
            alt: false,
            meta: false,
            caps_lock: false,
            num_lock: false,
        },
    };
    PlatformInputEvent { header, payload }
}

pub fn pointer(
    places: Places,
    sequence: u64,
    contact: u32,
    phase: PointerPhase,
) -> PlatformInputEvent {
    event(
        places,
        sequence,
        PlatformInputPayload::Pointer(PointerInput {
            contact,
            phase,
            x_milli: 0,
            y_milli: 0,
            delta_x_milli: 0,
            delta_y_milli: 0,
            pressure_q15: 16384,
            tilt_x_degrees: 0,
            tilt_y_degrees: 0,
            buttons: 1,
            changed_button: Some(0),
        }),
    )
}

pub fn disconnect(places: Places, sequence: u64) -> PlatformInputEvent {
    event(places, sequence, PlatformInputPayload::DeviceDisconnected)
}
