// The numbers of panels and their registrations.
ghost use Rattle.std.specs.Prelude.{[], ◌∷◌, ◌≡◌, get_or};
ghost use Rattle.records.specs.Surfaces.{no_surface};
ghost use Rattle.answer_numbers.specs.Numbers.{plain};
ghost use Rattle.answer_numbers.specs.Writers.{written};
ghost use Rattle.answer_numbers.specs.Panels.{scope_number, registration_numbers, registrations_numbers, panel_numbers};

use crate::arenas::SlotValues;
use crate::numbered::{Grouped, Numbered, write_group};
use crate::writer::Writer;
use lists::array::item_or;
use lists::table::Blank;
use records::shortcut::{ShortcutScope, Shortcuts, SlotShortcut};
use records::surface::{SurfaceRecord, SurfaceTable};

impl Numbered for ShortcutScope {
    ghost numbers = { λ s. plain (scope_number s) ∷ [] };

    fn write(&self, to: &mut Writer<'_>) {
        to.plain(*self as u64);
    }
}

impl Numbered for SlotShortcut {
    ghost numbers = { registration_numbers };

    fn write(&self, to: &mut Writer<'_>) {
        self.registration.class_mask.write(to);
        self.registration.scope.write(to);
        to.signed(self.registration.priority as i32);
    }
}

impl Grouped for SlotShortcut {
    ghost group = { λ e. e.slot };

    fn group(&self) -> usize {
        self.slot as usize
    }
}

// The registrations of the panel in a slot, in the order given.
fn write_registrations(shortcuts: &Shortcuts, slot: usize, to: &mut Writer<'_>)
    ensures { to.new ≡ written (registrations_numbers slot shortcuts.now) to.old }
{
    write_group(shortcuts.entries(), slot, to);
}

// The panels with the registrations of all.
#[derive(Clone, Copy)]
pub struct Panels<'a> {
    pub surfaces: &'a SurfaceTable,
    pub shortcuts: &'a Shortcuts,
}

impl SlotValues for Panels<'_> {
    ghost value = { λ p i. panel_numbers i (get_or p.surfaces.now.records i no_surface) p.shortcuts.now };

    fn write_value(&self, i: usize, to: &mut Writer<'_>) {
        let panel = item_or(&self.surfaces.records, i, SurfaceRecord::BLANK);
        panel.descriptor.write(to);
        write_registrations(self.shortcuts, i, to);
    }
}
