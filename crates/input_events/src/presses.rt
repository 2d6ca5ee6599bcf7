// Which press an event concerns, what becomes of that press, and which panel receives it.
ghost use Rattle.std.specs.Prelude.{◌≡◌};
ghost use Rattle.lists.specs.Lists.{first};
ghost use Rattle.lists.specs.Tables.{entries_of};
ghost use Rattle.records.specs.Traces.{deliveries as state_deliveries};
ghost use Rattle.input_events.specs.Presses.{pointer_of, pointer_press, key_press, press_in, press_of, pointer_effect, key_effect, gamepad_effect, effect_in, effect_of, is_unobserved, delivery_surface, receiver_of};

use crate::event::{
    GamepadInput, KeyInput, KeyPhase, PlatformInputEvent, PlatformInputPayload, PointerPhase,
};
use handles::GenerationalHandle;
use maps::keys::{BindingKey, CompositionPointerId, DeviceKey, InputDeviceId};
use records::trace::{Deliveries, InputDelivery};

// What an accepted event does to a press. Only an event with a receiver opens one.
#[derive(Clone, Copy, PartialEq, Eq)]
pub enum Effect {
    Opens(BindingKey),
    Ends(BindingKey),
    Nothing,
}

// The pointer of a contact of a device.
pub fn pointer_of(device: InputDeviceId, contact: u32) -> CompositionPointerId
    ensures { result ≡ pointer_of device contact }
{
    CompositionPointerId {
        device: device.value,
        device_generation: device.generation,
        contact,
    }
}

fn pointer_press(device: InputDeviceId, contact: u32) -> BindingKey
    ensures { result ≡ pointer_press device contact }
{
    BindingKey::Pointer(pointer_of(device, contact))
}

fn key_press(device: InputDeviceId, physical_key: u32) -> BindingKey
    ensures { result ≡ key_press device physical_key }
{
    BindingKey::Key(DeviceKey {
        device,
        physical_key,
    })
}

#[tactic(auto, unfolding(crate::specs::Presses::press_in))]
fn press_in(device: InputDeviceId, payload: PlatformInputPayload) -> Option<BindingKey>
    ensures { result ≡ press_in device payload }
{
    match payload {
        PlatformInputPayload::Pointer(pointer) => Some(pointer_press(device, pointer.contact)),
        PlatformInputPayload::Key(key) => Some(key_press(device, key.physical_key)),
        PlatformInputPayload::GamepadSnapshot(_) => Some(BindingKey::Gamepad(device)),
        PlatformInputPayload::Wheel(_)
        | PlatformInputPayload::Shortcut(_)
        | PlatformInputPayload::Text(_)
        | PlatformInputPayload::Composition(_)
        | PlatformInputPayload::FocusChanged(_)
        | PlatformInputPayload::VisibilityChanged(_)
        | PlatformInputPayload::DeviceDisconnected => None,
    }
}

// The press that an event concerns.
pub fn press_of(event: PlatformInputEvent) -> Option<BindingKey>
    ensures { result ≡ press_of event }
{
    press_in(event.header.device, event.payload)
}

fn pointer_effect(phase: PointerPhase, press: BindingKey) -> Effect
    ensures { result ≡ pointer_effect phase press }
{
    match phase {
        PointerPhase::Down => Effect::Opens(press),
        PointerPhase::Move => Effect::Nothing,
        PointerPhase::Up | PointerPhase::Cancel => Effect::Ends(press),
    }
}

fn key_effect(key: KeyInput, press: BindingKey) -> Effect
    ensures { result ≡ key_effect key.phase key.repeat press }
{
    match key.phase {
        KeyPhase::Down if key.repeat => Effect::Nothing,
        KeyPhase::Down => Effect::Opens(press),
        KeyPhase::Up => Effect::Ends(press),
    }
}

fn gamepad_effect(gamepad: GamepadInput, press: BindingKey) -> Effect
    ensures { result ≡ gamepad_effect gamepad.connected press }
{
    if gamepad.connected {
        Effect::Opens(press)
    } else {
        Effect::Ends(press)
    }
}

#[tactic(auto, unfolding(crate::specs::Presses::effect_in))]
fn effect_in(device: InputDeviceId, payload: PlatformInputPayload) -> Effect
    ensures { result ≡ effect_in device payload }
{
    match payload {
        PlatformInputPayload::Pointer(pointer) => {
            pointer_effect(pointer.phase, pointer_press(device, pointer.contact))
        }
        PlatformInputPayload::Key(key) => key_effect(key, key_press(device, key.physical_key)),
        PlatformInputPayload::GamepadSnapshot(gamepad) => {
            gamepad_effect(gamepad, BindingKey::Gamepad(device))
        }
        PlatformInputPayload::Wheel(_)
        | PlatformInputPayload::Shortcut(_)
        | PlatformInputPayload::Text(_)
        | PlatformInputPayload::Composition(_)
        | PlatformInputPayload::FocusChanged(_)
        | PlatformInputPayload::VisibilityChanged(_)
        | PlatformInputPayload::DeviceDisconnected => Effect::Nothing,
    }
}

// What an event does to its press, once it is arbitrated.
pub fn effect_of(event: PlatformInputEvent) -> Effect
    ensures { result ≡ effect_of event }
{
    effect_in(event.header.device, event.payload)
}

fn unobserved(deliveries: &[InputDelivery]) -> Option<InputDelivery>
    ensures { result ≡ first is_unobserved deliveries.now }
{
    deliveries
        .iter()
        .copied()
        .find(|delivery| !delivery.observed)
}

fn first_unobserved(deliveries: Deliveries) -> Option<GenerationalHandle>
    ensures { result ≡ delivery_surface (first is_unobserved (entries_of state_deliveries deliveries)) }
{
    unobserved(deliveries.entries()).map(|delivery| delivery.surface)
}

// The panel that receives an arbitrated event: its consumer, else the first that it was delivered to unobserved.
#[tactic(auto, unfolding(crate::specs::Presses::receiver_of))]
pub fn receiver(
    consumed_by: Option<GenerationalHandle>,
    deliveries: Deliveries,
) -> Option<GenerationalHandle>
    ensures { result ≡ receiver_of consumed_by deliveries }
{
    consumed_by.or_else(|| first_unobserved(deliveries))
}
