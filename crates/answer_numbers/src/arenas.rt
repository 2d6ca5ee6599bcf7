// The numbers of slot tables.
ghost use Rattle.std.specs.Prelude.{ℕ, List, [], ◌≡◌};
ghost use Rattle.answer_numbers.specs.Numbers.{Number};
ghost use Rattle.answer_numbers.specs.Writers.{written};
ghost use Rattle.answer_numbers.specs.Arenas.{slot_head, arena_numbers};

use crate::numbered::{Numbered, front, write_list};
use crate::writer::Writer;
use handles::arena::{Arena, Slot, slot_at, used_places};

// A slot without its value.
impl Numbered for Slot {
    ghost numbers = { slot_head };

    fn write(&self, to: &mut Writer<'_>) {
        self.generation.write(to);
        self.filled.write(to);
    }
}

// What the slots of an arena hold, by slot index.
pub trait SlotValues {
    ghost value: { Self → ℕ → List Number };

    fn write_value(&self, i: usize, to: &mut Writer<'_>)
        ensures { to.new ≡ written (value self.now i) to.old };
}

// A window has no value.
#[derive(Clone, Copy)]
pub struct NoValues;

impl SlotValues for NoValues {
    ghost value = { λ s i. [] };

    fn write_value(&self, i: usize, to: &mut Writer<'_>) {}
}

// The used slots with their values, the free list, the one used next last, and the live count.
pub fn write_arena<V: SlotValues>(arena: &Arena, values: &V, to: &mut Writer<'_>)
    ensures { to.new ≡ written (arena_numbers (V.value values.now) arena.now) to.old }
{
    let used = used_places(*arena);
    used.write(to);
    for i in 0..used {
        let slot = slot_at(arena.slots, i);
        slot.write(to);
        if slot.filled {
            values.write_value(i, to);
        }
    }
    write_list(front(&arena.free, arena.freed), to);
    arena.live.write(to);
}
