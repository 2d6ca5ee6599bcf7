// The records of views or panels by slot: the slots, and a record for each.
ghost use Rattle.std.specs.Prelude.{◌≡◌, cond, get_or, set, ltb};
ghost use Rattle.handles.specs.Slots.{lookup_of};
ghost use Rattle.records.specs.Errors.{status_refusal};
ghost use Rattle.records.specs.declared.error.CompositionError.{CompositionError};

use crate::error::{CompositionError, Outcome, refuse_status};
use handles::GenerationalHandle;
use handles::arena::Arena;
use lists::array::{item_or, with_item};
use lists::table::Blank;

// What stands in a slot, and what a handle that names no live one is refused with.
pub trait SlotRecord: Blank {
    ghost INVALID: { CompositionError };

    const INVALID: CompositionError;

    ghost STALE: { CompositionError };

    const STALE: CompositionError;
}

#[derive(Clone, Copy)]
pub struct SlotTable<R, const N: usize> {
    pub arena: Arena,
    pub records: [R; N],
}

impl<R: SlotRecord, const N: usize> SlotTable<R, N> {
    // The record of a handle, by its slot; past the end of the table it is a blank.
    pub fn record(&self, handle: GenerationalHandle) -> R
        ensures { result ≡ get_or self.now.records handle.index R.BLANK }
    {
        item_or(&self.records, handle.index as usize, R::BLANK)
    }

    // The table with another record for a handle; past its end nothing is written.
    pub fn with_record(self, handle: GenerationalHandle, record: R) -> Self
        ensures { result ≡ record { arena = self.arena; records = set self.records handle.index «record» } }
    {
        Self {
            records: with_item(self.records, handle.index as usize, record),
            ..self
        }
    }

    pub fn with_arena(self, arena: Arena) -> Self
        ensures { result ≡ record { arena = arena; records = self.records } }
    {
        Self { arena, ..self }
    }

    // How many slots of the table were used: all, where the count is past its end.
    pub fn slots(&self) -> usize
        ensures { result ≡ cond (ltb self.now.arena.used N) self.now.arena.used N }
    {
        self.arena.used.min(N)
    }

    // What a handle that is not live refuses.
    pub fn refusal(&self, handle: GenerationalHandle) -> Outcome
        ensures { result ≡ status_refusal (lookup_of self.now.arena handle) R.INVALID R.STALE }
    {
        refuse_status(
            handles::arena::lookup(self.arena, handle),
            R::INVALID,
            R::STALE,
        )
    }
}
