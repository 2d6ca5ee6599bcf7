// The system shortcuts of all panels, in one table.
ghost use Rattle.std.specs.Prelude.{◌≡◌};
ghost use Rattle.records.specs.Shortcuts.{no_shortcut, shortcuts_without};

use lists::table::{Blank, Table};

#[derive(Clone, Copy, PartialEq, Eq)]
pub enum ShortcutScope {
    View,
    Window,
    Session,
}

#[derive(Clone, Copy)]
pub struct SurfaceShortcutRegistration {
    pub class_mask: u64,
    pub scope: ShortcutScope,
    pub priority: i16,
}

// A registration with the slot of its panel.
#[derive(Clone, Copy)]
pub struct SlotShortcut {
    pub slot: u32,
    pub registration: SurfaceShortcutRegistration,
}

pub type Shortcuts = Table<SlotShortcut, 256>;

impl SurfaceShortcutRegistration {
    // What stands in an unused place.
    pub const ZERO: Self = SurfaceShortcutRegistration {
        class_mask: 0,
        scope: ShortcutScope::View,
        priority: 0,
    };
}

impl Blank for SurfaceShortcutRegistration {
    ghost BLANK = { no_shortcut.registration };

    const BLANK: Self = Self::ZERO;
}

impl Blank for SlotShortcut {
    ghost BLANK = { no_shortcut };

    const BLANK: Self = SlotShortcut {
        slot: 0,
        registration: SurfaceShortcutRegistration::ZERO,
    };
}

// The registrations of all slots but one.
pub fn shortcuts_without(shortcuts: Shortcuts, slot: u32) -> Shortcuts
    ensures { result ≡ shortcuts_without slot shortcuts }
{
    shortcuts.retain(|entry| entry.slot != slot)
}
