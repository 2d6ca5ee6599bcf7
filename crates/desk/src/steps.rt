// The eight steps of the session. Every event is of device 7.1, and every press of its contact 0.
ghost use Rattle.std.specs.Prelude.{◌≡◌};
ghost use Rattle.desk.specs.Steps.{no_modifiers, header_of, route_call, down_call, disconnect_call, call_of};

use crate::opening::Places;
use calls::call::{Call, CloseCall, RouterCall};
use input_events::event::{
    InputDeviceKind, InputModifiers, PlatformInputEvent, PlatformInputHeader, PlatformInputPayload,
    PointerInput, PointerPhase,
};
use maps::keys::InputDeviceId;

fn no_modifiers() -> InputModifiers
    ensures { result ≡ no_modifiers }
{
    InputModifiers {
        shift: false,
        control: false,
        alt: false,
        meta: false,
        caps_lock: false,
        num_lock: false,
    }
}

fn header(places: Places, sequence: u64, time: u64) -> PlatformInputHeader
    ensures { result ≡ header_of places sequence time }
{
    PlatformInputHeader {
        sequence,
        timestamp_micros: time,
        metrics_revision: places.metrics_revision,
        window: places.window,
        view: places.view,
        device: InputDeviceId {
            value: 7,
            generation: 1,
        },
        device_kind: InputDeviceKind::Touch,
        modifiers: no_modifiers(),
    }
}

fn route(places: Places, sequence: u64, time: u64, payload: PlatformInputPayload) -> Call
    ensures { result ≡ route_call places sequence time payload }
{
    let header = header(places, sequence, time);
    Call::Router(RouterCall::Route(PlatformInputEvent { header, payload }))
}

// The contact presses at the view's origin, at half the full pressure.
fn down(places: Places, sequence: u64, time: u64) -> Call
    ensures { result ≡ down_call places sequence time }
{
    let press = PointerInput {
        contact: 0,
        phase: PointerPhase::Down,
        x_milli: 0,
        y_milli: 0,
        delta_x_milli: 0,
        delta_y_milli: 0,
        pressure_q15: 16384,
        tilt_x_degrees: 0,
        tilt_y_degrees: 0,
        buttons: 1,
        changed_button: Some(0),
    };
    route(places, sequence, time, PlatformInputPayload::Pointer(press))
}

fn disconnect(places: Places, sequence: u64, time: u64) -> Call
    ensures { result ≡ disconnect_call places sequence time }
{
    route(
        places,
        sequence,
        time,
        PlatformInputPayload::DeviceDisconnected,
    )
}

// The call of a step. Steps 5 and 7 are refused: a sequence that does not rise, and a time that goes back.
pub fn call_of(places: Places, step: u64) -> Call
    ensures { result ≡ call_of places step }
{
    match step {
        1 => down(places, 1, 10),
        2 => Call::Close(CloseCall::CloseSurface(places.pay_sheet)),
        3 => Call::Router(RouterCall::ReleaseSurface(places.pay_sheet)),
        4 => down(places, 2, 10),
        5 => down(places, 2, 10),
        6 => disconnect(places, 3, 11),
        7 => down(places, 1, 9),
        _ => down(places, 1, 11),
    }
}
