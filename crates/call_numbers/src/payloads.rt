// The payloads of a routed event: the kind at 17, and the kind's fields from 18 on.

#![tactic(auto, unfolding(crate::specs::Payloads::pointer_at, crate::specs::Payloads::wheel_at, crate::specs::Payloads::key_at, crate::specs::Payloads::composition_at, crate::specs::Payloads::gamepad_at, crate::specs::Payloads::payload_at))]

ghost use Rattle.std.specs.Prelude.{◌≡◌};
ghost use Rattle.call_numbers.specs.Payloads.{pointer_at, wheel_at, key_at, composition_at, gamepad_at, payload_at};

use call_fields::groups::{ButtonNumbers, button_of};
use call_fields::numbered::Numbered;
use input_events::event::{
    CompositionInput, CompositionPhase, GamepadInput, GamepadMapping, KeyInput, KeyPhase,
    PlatformInputPayload, PointerInput, PointerPhase, ShortcutInput, TextInput, WheelInput,
    WheelUnit,
};

fn pointer_at(words: [u64; 32]) -> PointerInput
    ensures { result ≡ pointer_at words }
{
    PointerInput {
        contact: u32::from_number(words[18]),
        phase: PointerPhase::from_number(words[19]),
        x_milli: i32::from_number(words[20]),
        y_milli: i32::from_number(words[21]),
        delta_x_milli: i32::from_number(words[22]),
        delta_y_milli: i32::from_number(words[23]),
        pressure_q15: u16::from_number(words[24]),
        tilt_x_degrees: i16::from_number(words[25]),
        tilt_y_degrees: i16::from_number(words[26]),
        buttons: u32::from_number(words[27]),
        changed_button: button_of(ButtonNumbers {
            present: words[28],
            button: words[29],
        }),
    }
}

fn wheel_at(words: [u64; 32]) -> WheelInput
    ensures { result ≡ wheel_at words }
{
    WheelInput {
        contact: u32::from_number(words[18]),
        x_milli: i32::from_number(words[19]),
        y_milli: i32::from_number(words[20]),
        delta_x_milli: i32::from_number(words[21]),
        delta_y_milli: i32::from_number(words[22]),
        unit: WheelUnit::from_number(words[23]),
    }
}

fn key_at(words: [u64; 32]) -> KeyInput
    ensures { result ≡ key_at words }
{
    KeyInput {
        phase: KeyPhase::from_number(words[18]),
        physical_key: u32::from_number(words[19]),
        repeat: bool::from_number(words[20]),
    }
}

fn composition_at(words: [u64; 32]) -> CompositionInput
    ensures { result ≡ composition_at words }
{
    CompositionInput {
        phase: CompositionPhase::from_number(words[18]),
        length: u32::from_number(words[19]),
        selection_start: u32::from_number(words[20]),
        selection_end: u32::from_number(words[21]),
    }
}

fn gamepad_at(words: [u64; 32]) -> GamepadInput
    ensures { result ≡ gamepad_at words }
{
    GamepadInput {
        connected: bool::from_number(words[18]),
        mapping: GamepadMapping::from_number(words[19]),
    }
}

// The payload of a kind from 0 to 9, by the declared order; any other is read as the last.
pub fn payload_at(words: [u64; 32]) -> PlatformInputPayload
    ensures { result ≡ payload_at words }
{
    match words[17] {
        0 => PlatformInputPayload::Pointer(pointer_at(words)),
        1 => PlatformInputPayload::Wheel(wheel_at(words)),
        2 => PlatformInputPayload::Key(key_at(words)),
        3 => PlatformInputPayload::Shortcut(ShortcutInput {
            class_mask: words[18],
            system: bool::from_number(words[19]),
        }),
        4 => PlatformInputPayload::Text(TextInput {
            length: u32::from_number(words[18]),
        }),
        5 => PlatformInputPayload::Composition(composition_at(words)),
        6 => PlatformInputPayload::GamepadSnapshot(gamepad_at(words)),
        7 => PlatformInputPayload::FocusChanged(bool::from_number(words[18])),
        8 => PlatformInputPayload::VisibilityChanged(bool::from_number(words[18])),
        _ => PlatformInputPayload::DeviceDisconnected,
    }
}
