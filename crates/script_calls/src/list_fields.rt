// The two lists of a line, hits and registrations: a count, then as many groups; none where one is out of its range. A
// list that is longer than its table is counted in full.

#![tactic(auto, unfolding(crate::specs::ListFields::registration_at, crate::specs::ListFields::hits_at, crate::specs::ListFields::registrations_at))]

ghost use Rattle.std.specs.Prelude.{◌≡◌, ◌<◌, ℕ, Option};
ghost use Rattle.script_calls.specs.ListClaims.{ListClaims};
ghost use Rattle.script_calls.specs.ListFields.{registration_at, hits_at, listed, registrations_at};

use crate::groups::{handle_field, read_field};
use call_fields::numbered::Numbered;
use composition_shortcuts::register::Registrations;
use lists::array::with_item;
use lists::table::{Blank, Table};
use records::shortcut::{ShortcutScope, SurfaceShortcutRegistration};
use records::trace::Hits;
use script::fields::{as_at_most, field};
use script::line::Fields;

// A registration: mask, scope, priority.
pub fn registration_field(fields: Fields, i: u32) -> Option<SurfaceShortcutRegistration>
    ensures { result ≡ registration_at fields i }
{
    let at = i as usize;
    Some(SurfaceShortcutRegistration {
        class_mask: read_field(fields, at)?,
        scope: ShortcutScope::from_number(as_at_most(field(fields, at + 1), 2)?),
        priority: read_field(fields, at + 2)?,
    })
}

// The n entries that a closure reads, if it reads each of them. Past the table's end an entry is only counted.
fn list_of<T: Blank, const N: usize, F: Fn(u16) -> Option<T>>(
    n: u16,
    read: F,
) -> Option<Table<T, N>>
    requires { F.IsAlwaysCallable read }
    ensures { (entry : ℕ → Option T) → ((k : ℕ) (r : Option T) → k < n → F.post read k r → r ≡ entry k)
        → result ≡ listed N T.BLANK entry n }
{
    let mut list = Table::new();
    for k in 0..n {
        let entry = read(k)?;
        list = Table {
            items: with_item(list.items, k as usize, entry),
            len: k as usize + 1,
        };
    }
    Some(list)
}

// A count from 0 to 20, then as many handles.
pub fn hits_field(fields: Fields, i: u8) -> Option<Hits>
    ensures { result ≡ hits_at fields i }
{
    let count = as_at_most(field(fields, i as usize), 20)?;
    let first = i as u16 + 1;
    list_of(
        count as u16,
        |k: u16| handle_field(fields, first as u32 + 2 * (k as u32)),
    )
}

// A count from 0 to 70, then as many registrations.
pub fn registrations_field(fields: Fields, i: u8) -> Option<Registrations>
    ensures { result ≡ registrations_at fields i }
{
    let count = as_at_most(field(fields, i as usize), 70)?;
    let first = i as u16 + 1;
    list_of(
        count as u16,
        |k: u16| registration_field(fields, first as u32 + 3 * (k as u32)),
    )
}

// The claims about the two lists, as a theorem that the check names.
pub fn list_claims()
    ensures { ListClaims }
{}
