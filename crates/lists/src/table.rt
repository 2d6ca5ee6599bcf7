// A table: an array of which the first `len` places hold the entries.
ghost use Rattle.std.specs.Prelude.{◌≡◌, ◌<◌, Bool, [], length};
ghost use Rattle.std.specs.List.{fold};
ghost use Rattle.std.specs.Iterator.{IsFinite};
ghost use Rattle.std.specs.Iterator.Runs.{WholeRun};
ghost use Rattle.lists.specs.Lists.{keep, AnswersAs};
ghost use Rattle.lists.specs.Tables.{table, entries_of, packed, pushed, pushed_within};

// What can stand in a table: it has a value for the places that are not used.
pub trait Blank: Copy {
    ghost BLANK: { Self };

    const BLANK: Self;
}

#[repr(C)]
#[derive(Clone, Copy)]
pub struct Table<T, const N: usize> {
    pub items: [T; N],
    pub len: usize,
}

impl<T: Blank, const N: usize> Table<T, N> {
    #[tactic(auto, unfolding(crate::specs::Tables::packed))]
    pub fn new() -> Self
        ensures { result ≡ packed (table N T.BLANK) [] }
    {
        Self {
            items: [T::BLANK; N],
            len: 0,
        }
    }

    // How many entries the table has: a stored count past its end is read as a full table.
    #[tactic(auto, unfolding(crate::specs::Tables::entries_of))]
    pub fn count(&self) -> usize
        ensures { result ≡ length (entries_of (table N T.BLANK) self.now) }
    {
        self.len.min(N)
    }

    #[tactic(auto, unfolding(crate::specs::Tables::entries_of))]
    pub fn entries(&self) -> &[T]
        ensures { result.now ≡ entries_of (table N T.BLANK) self.now }
    {
        if self.len < N {
            &self.items[..self.len]
        } else {
            &self.items
        }
    }

    #[tactic(auto, unfolding(crate::specs::Tables::pushed))]
    pub fn push(self, item: T) -> Self
        requires { self.len < N }
        ensures { result ≡ pushed (table N T.BLANK) self item }
    {
        let mut next = self;
        next.items[next.len] = item;
        next.len += 1;
        next
    }

    // A full table stays as it is.
    pub fn push_within(self, item: T) -> Self
        ensures { result ≡ pushed_within (table N T.BLANK) self item }
    {
        let mut next = self;
        next.push_in_place(item);
        next
    }

    // The same where the table stands, so that a loop makes no copies.
    #[tactic(auto, unfolding(crate::specs::Tables::pushed_within, crate::specs::Tables::pushed))]
    pub fn push_in_place(&mut self, item: T)
        ensures { self.new ≡ pushed_within (table N T.BLANK) self.old item }
    {
        if self.len < N {
            self.items[self.len] = item;
            self.len += 1;
        }
    }

    // The table with items put after its own, as far as there is room.
    pub fn extend<I: Iterator<Item = T> + Drop>(self, items: I) -> Self
        requires can { I.can_next items }
        requires finite { IsFinite (I.remaining items) }
        ensures runs { WholeRun I.next_gives items (λ p. result ≡ fold (pushed_within (table N T.BLANK)) self p.items) }
    {
        let mut next = self;
        for item in items {
            next.push_in_place(item);
        }
        next
    }

    // The entries that pass a test.
    pub fn retain<F: Fn(&T) -> bool>(self, passes: F) -> Self
        requires { F.IsAlwaysCallable passes }
        ensures { (test : T → Bool) → AnswersAs F.Fn passes test
            → result ≡ packed (table N T.BLANK) (keep test (entries_of (table N T.BLANK) self)) }
    {
        let mut kept = Table::new();
        for entry in self.entries() {
            if passes(entry) {
                kept.push_in_place(*entry);
            }
        }
        kept
    }
}
