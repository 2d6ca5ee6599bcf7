// The registrations beside a call, as numbers. Behind the count's entries stand zeros.
ghost use Rattle.std.specs.Prelude.{◌≡◌};
ghost use Rattle.lists.specs.Below.{all_below};
ghost use Rattle.host_message.specs.Claims.{RegistrationClaims};
ghost use Rattle.host_message.specs.Registrations.{registrations_of, is_entry_form, entry_form};

use call_fields::groups::{RegistrationNumbers, registration_of};
use composition_shortcuts::register::Registrations;

// A struct of its own, since the structs that C hands in have no type parameters, and here the count stands first.
#[repr(C)]
#[derive(Clone, Copy)]
pub struct RegistrationsNumbers {
    pub len: usize,
    pub items: [RegistrationNumbers; 64],
}

pub fn registrations_of(numbers: RegistrationsNumbers) -> Registrations
    ensures { result ≡ registrations_of numbers }
{
    Registrations {
        items: numbers.items.map(|entry| registration_of(entry)),
        len: numbers.len,
    }
}

fn is_entry_form(len: usize, at: usize, numbers: RegistrationNumbers) -> bool
    ensures { result ≡ is_entry_form len at numbers }
{
    if at < len {
        numbers.scope < 3 && numbers.priority < 65536
    } else {
        numbers.class_mask == 0 && numbers.scope == 0 && numbers.priority == 0
    }
}

pub fn are_registrations_form(numbers: RegistrationsNumbers) -> bool
    ensures { result ≡ all_below (entry_form numbers) 64 }
{
    (0..64).all(|i| is_entry_form(numbers.len, i, numbers.items[i]))
}

// No list of registrations has two forms, and every list has one.
pub fn registration_claims()
    ensures { RegistrationClaims }
{}
