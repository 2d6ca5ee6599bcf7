// Which registrations of the table count for an event.
ghost use Rattle.std.specs.Prelude.{◌≡◌};
ghost use Rattle.composition_shortcuts.specs.Scope.{shares_bit, owner_of, is_owned, in_scope, counts};

use handles::GenerationalHandle;
use handles::arena::{Arena, slot_at};
use records::shortcut::{ShortcutScope, SlotShortcut};
use records::surface::SurfaceTable;
use records::view::ViewTable;

#[tactic(auto, unfolding(crate::specs::Scope::shares_bit))]
pub fn shares_bit(a: u64, b: u64) -> bool
    ensures { result ≡ shares_bit a b }
{
    a & b != 0
}

// The panel in the slot of a registration.
pub fn owner_of(surfaces: Arena, entry: SlotShortcut) -> GenerationalHandle
    ensures { result ≡ owner_of surfaces entry }
{
    GenerationalHandle {
        index: entry.slot,
        generation: slot_at(surfaces.slots, entry.slot as usize).generation,
    }
}

// Whether the slot of a registration holds a live panel.
fn is_owned(surfaces: Arena, entry: SlotShortcut) -> bool
    ensures { result ≡ is_owned surfaces entry }
{
    let i = entry.slot as usize;
    i < surfaces.used && slot_at(surfaces.slots, i).filled
}

fn is_in_scope(
    views: ViewTable,
    scope: ShortcutScope,
    own: GenerationalHandle,
    view: GenerationalHandle,
) -> bool
    ensures { result ≡ in_scope views scope own view }
{
    match scope {
        ShortcutScope::View => own == view,
        ShortcutScope::Window => views.record(own).window == views.record(view).window,
        ShortcutScope::Session => true,
    }
}

// The tests that need no view record come first.
#[tactic(auto, unfolding(crate::specs::Scope::counts))]
pub fn is_counted(
    views: ViewTable,
    surfaces: SurfaceTable,
    view: GenerationalHandle,
    class_mask: u64,
    entry: SlotShortcut,
) -> bool
    ensures { result ≡ counts views surfaces view class_mask entry }
{
    shares_bit(entry.registration.class_mask, class_mask)
        && is_owned(surfaces.arena, entry)
        && is_in_scope(
            views,
            entry.registration.scope,
            surfaces.descriptor(owner_of(surfaces.arena, entry)).view,
            view,
        )
}
