// The enums of an input event, by their numbers: the declared order from 0.

#![tactic(auto, unfolding(crate::specs::EventChoices::device_kind_of, crate::specs::EventChoices::key_phase_of, crate::specs::EventChoices::pointer_phase_of, crate::specs::EventChoices::wheel_unit_of, crate::specs::EventChoices::composition_phase_of, crate::specs::EventChoices::mapping_of))]

ghost use Rattle.std.specs.Prelude.{◌≡◌};
ghost use Rattle.call_fields.specs.EventChoices.{device_kind_of, device_kind_number, key_phase_of, key_phase_number, pointer_phase_of, pointer_phase_number, wheel_unit_of, wheel_unit_number, composition_phase_of, composition_phase_number, mapping_of, mapping_number};
ghost use Rattle.call_fields.specs.Back.{device_kind_back, key_phase_back, pointer_phase_back, wheel_unit_back, composition_phase_back, mapping_back};

use crate::numbered::Numbered;
use input_events::event::{
    CompositionPhase, GamepadMapping, InputDeviceKind, KeyPhase, PointerPhase, WheelUnit,
};

impl Numbered for InputDeviceKind {
    ghost value_of = { device_kind_of };

    ghost number_of = { device_kind_number };

    ghost back = { λ x h. device_kind_back x };

    fn from_number(n: u64) -> InputDeviceKind {
        match n {
            1 => InputDeviceKind::Touch,
            2 => InputDeviceKind::Pen,
            3 => InputDeviceKind::Keyboard,
            4 => InputDeviceKind::Gamepad,
            _ => InputDeviceKind::Mouse,
        }
    }

    fn number(self) -> u64 {
        self as u64
    }
}

impl Numbered for KeyPhase {
    ghost value_of = { key_phase_of };

    ghost number_of = { key_phase_number };

    ghost back = { λ x h. key_phase_back x };

    fn from_number(n: u64) -> KeyPhase {
        match n {
            1 => KeyPhase::Up,
            _ => KeyPhase::Down,
        }
    }

    fn number(self) -> u64 {
        self as u64
    }
}

impl Numbered for PointerPhase {
    ghost value_of = { pointer_phase_of };

    ghost number_of = { pointer_phase_number };

    ghost back = { λ x h. pointer_phase_back x };

    fn from_number(n: u64) -> PointerPhase {
        match n {
            1 => PointerPhase::Move,
            2 => PointerPhase::Up,
            3 => PointerPhase::Cancel,
            _ => PointerPhase::Down,
        }
    }

    fn number(self) -> u64 {
        self as u64
    }
}

impl Numbered for WheelUnit {
    ghost value_of = { wheel_unit_of };

    ghost number_of = { wheel_unit_number };

    ghost back = { λ x h. wheel_unit_back x };

    fn from_number(n: u64) -> WheelUnit {
        match n {
            1 => WheelUnit::Line,
            2 => WheelUnit::Page,
            _ => WheelUnit::Pixel,
        }
    }

    fn number(self) -> u64 {
        self as u64
    }
}

impl Numbered for CompositionPhase {
    ghost value_of = { composition_phase_of };

    ghost number_of = { composition_phase_number };

    ghost back = { λ x h. composition_phase_back x };

    fn from_number(n: u64) -> CompositionPhase {
        match n {
            1 => CompositionPhase::Update,
            2 => CompositionPhase::End,
            3 => CompositionPhase::Cancel,
            _ => CompositionPhase::Start,
        }
    }

    fn number(self) -> u64 {
        self as u64
    }
}

impl Numbered for GamepadMapping {
    ghost value_of = { mapping_of };

    ghost number_of = { mapping_number };

    ghost back = { λ x h. mapping_back x };

    fn from_number(n: u64) -> GamepadMapping {
        match n {
            1 => GamepadMapping::Raw,
            _ => GamepadMapping::Standard,
        }
    }

    fn number(self) -> u64 {
        self as u64
    }
}
