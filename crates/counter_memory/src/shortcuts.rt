// The registrations of system shortcuts, and their table.
ghost use Rattle.std.specs.Prelude.{◌≡◌};
ghost use Rattle.counter_memory.specs.Shortcuts.{shortcut_memory, shortcut_of, shortcuts_memory, shortcuts_of};

use crate::arrays::converted;
use call_fields::numbered::Numbered;
use records::shortcut::{ShortcutScope, Shortcuts, SlotShortcut, SurfaceShortcutRegistration};

// A registration's fields, beside the slot of its panel.
#[repr(C)]
#[derive(Clone, Copy)]
pub struct SlotShortcutMemory {
    pub class_mask: u64,
    pub slot: u32,
    pub priority: i16,
    pub scope: u8,
}

// A struct of its own, since C hands in no table with parameters.
#[repr(C)]
#[derive(Clone, Copy)]
pub struct ShortcutsMemory {
    pub entries: [SlotShortcutMemory; 256],
    pub len: usize,
}

impl From<SlotShortcut> for SlotShortcutMemory {
    ghost from_gives = { λ entry memory. memory ≡ shortcut_memory entry };

    fn from(entry: SlotShortcut) -> Self {
        Self {
            class_mask: entry.registration.class_mask,
            slot: entry.slot,
            priority: entry.registration.priority,
            scope: entry.registration.scope as u8,
        }
    }
}

impl From<SlotShortcutMemory> for SlotShortcut {
    ghost from_gives = { λ memory entry. entry ≡ shortcut_of memory };

    fn from(memory: SlotShortcutMemory) -> Self {
        Self {
            slot: memory.slot,
            registration: SurfaceShortcutRegistration {
                class_mask: memory.class_mask,
                scope: ShortcutScope::from_number(u64::from(memory.scope)),
                priority: memory.priority,
            },
        }
    }
}

impl From<Shortcuts> for ShortcutsMemory {
    ghost from_gives = { λ shortcuts memory. memory ≡ shortcuts_memory shortcuts };

    fn from(shortcuts: Shortcuts) -> Self {
        Self {
            entries: converted(&shortcuts.items),
            len: shortcuts.len,
        }
    }
}

impl From<ShortcutsMemory> for Shortcuts {
    ghost from_gives = { λ memory shortcuts. shortcuts ≡ shortcuts_of memory };

    fn from(memory: ShortcutsMemory) -> Self {
        Self {
            items: converted(&memory.entries),
            len: memory.len,
        }
    }
}
