// Handles, pointers, optional fields and registrations, by their numbers. An optional field is a flag and its fields,
// as a host hands them in; behind a flag of 0 stand zeros.

#![tactic(auto, unfolding(crate::specs::Groups::optional_of, crate::specs::Groups::rect_of, crate::specs::Groups::maybe_of))]

ghost use Rattle.std.specs.Prelude.{◌≡◌};
ghost use Rattle.call_fields.specs.Groups.{handle_of, optional_of, optional_numbers, pointer_of, device_of, rect_of, rect_numbers, button_of, button_numbers, registration_of, registration_numbers, maybe_of, maybe_numbers};

use crate::numbered::Numbered;
use geometry::rect::SurfaceRect;
use handles::GenerationalHandle;
use maps::keys::{CompositionPointerId, InputDeviceId};
use records::shortcut::{ShortcutScope, SurfaceShortcutRegistration};

// `present` is the word before the fields, as a message of a host has it.
#[derive(Clone, Copy)]
pub struct OptionalNumbers {
    pub present: u64,
    pub index: u64,
    pub generation: u64,
}

// `present` is the word before the fields, as a message of a host has it.
#[derive(Clone, Copy)]
pub struct RectNumbers {
    pub present: u64,
    pub x_milli: u64,
    pub y_milli: u64,
    pub width_milli: u64,
    pub height_milli: u64,
}

// `present` is the word before the fields, as a message of a host has it.
#[derive(Clone, Copy)]
pub struct ButtonNumbers {
    pub present: u64,
    pub button: u64,
}

#[repr(C)]
#[derive(Clone, Copy)]
pub struct RegistrationNumbers {
    pub class_mask: u64,
    pub scope: u64,
    pub priority: u64,
}

// `present` is the word before the fields, as a message of a host has it.
#[derive(Clone, Copy)]
pub struct MaybeNumbers {
    pub present: u64,
    pub registration: RegistrationNumbers,
}

pub fn handle_of(index: u64, generation: u64) -> GenerationalHandle
    ensures { result ≡ handle_of index generation }
{
    GenerationalHandle {
        index: u32::from_number(index),
        generation: u32::from_number(generation),
    }
}

pub fn optional_of(numbers: OptionalNumbers) -> Option<GenerationalHandle>
    ensures { result ≡ optional_of numbers }
{
    if numbers.present == 1 {
        return Some(handle_of(numbers.index, numbers.generation));
    }
    None
}

pub fn optional_numbers(optional: Option<GenerationalHandle>) -> OptionalNumbers
    ensures { result ≡ optional_numbers optional }
{
    match optional {
        None => OptionalNumbers {
            present: 0,
            index: 0,
            generation: 0,
        },
        Some(h) => OptionalNumbers {
            present: 1,
            index: h.index.number(),
            generation: h.generation.number(),
        },
    }
}

pub fn pointer_of(device: u64, device_generation: u64, contact: u64) -> CompositionPointerId
    ensures { result ≡ pointer_of device device_generation contact }
{
    CompositionPointerId {
        device,
        device_generation: u32::from_number(device_generation),
        contact: u32::from_number(contact),
    }
}

pub fn device_of(value: u64, generation: u64) -> InputDeviceId
    ensures { result ≡ device_of value generation }
{
    InputDeviceId {
        value,
        generation: u32::from_number(generation),
    }
}

pub fn rect_of(numbers: RectNumbers) -> Option<SurfaceRect>
    ensures { result ≡ rect_of numbers }
{
    if numbers.present == 1 {
        let rect = SurfaceRect {
            x_milli: i32::from_number(numbers.x_milli),
            y_milli: i32::from_number(numbers.y_milli),
            width_milli: u32::from_number(numbers.width_milli),
            height_milli: u32::from_number(numbers.height_milli),
        };
        return Some(rect);
    }
    None
}

pub fn rect_numbers(optional: Option<SurfaceRect>) -> RectNumbers
    ensures { result ≡ rect_numbers optional }
{
    match optional {
        None => RectNumbers {
            present: 0,
            x_milli: 0,
            y_milli: 0,
            width_milli: 0,
            height_milli: 0,
        },
        Some(rect) => RectNumbers {
            present: 1,
            x_milli: rect.x_milli.number(),
            y_milli: rect.y_milli.number(),
            width_milli: rect.width_milli.number(),
            height_milli: rect.height_milli.number(),
        },
    }
}

pub fn button_of(numbers: ButtonNumbers) -> Option<u8>
    ensures { result ≡ button_of numbers }
{
    if numbers.present == 1 {
        return Some(u8::from_number(numbers.button));
    }
    None
}

pub fn button_numbers(optional: Option<u8>) -> ButtonNumbers
    ensures { result ≡ button_numbers optional }
{
    match optional {
        None => ButtonNumbers {
            present: 0,
            button: 0,
        },
        Some(button) => ButtonNumbers {
            present: 1,
            button: button.number(),
        },
    }
}

pub fn registration_of(numbers: RegistrationNumbers) -> SurfaceShortcutRegistration
    ensures { result ≡ registration_of numbers }
{
    SurfaceShortcutRegistration {
        class_mask: numbers.class_mask,
        scope: ShortcutScope::from_number(numbers.scope),
        priority: i16::from_number(numbers.priority),
    }
}

pub fn registration_numbers(registration: SurfaceShortcutRegistration) -> RegistrationNumbers
    ensures { result ≡ registration_numbers registration }
{
    RegistrationNumbers {
        class_mask: registration.class_mask,
        scope: registration.scope.number(),
        priority: registration.priority.number(),
    }
}

pub fn maybe_of(numbers: MaybeNumbers) -> Option<SurfaceShortcutRegistration>
    ensures { result ≡ maybe_of numbers }
{
    if numbers.present == 1 {
        return Some(registration_of(numbers.registration));
    }
    None
}

pub fn maybe_numbers(optional: Option<SurfaceShortcutRegistration>) -> MaybeNumbers
    ensures { result ≡ maybe_numbers optional }
{
    match optional {
        None => MaybeNumbers {
            present: 0,
            registration: RegistrationNumbers {
                class_mask: 0,
                scope: 0,
                priority: 0,
            },
        },
        Some(registration) => MaybeNumbers {
            present: 1,
            registration: registration_numbers(registration),
        },
    }
}
