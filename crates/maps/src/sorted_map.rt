// A map in a table: its entries have strictly rising keys, so that each key stands once.
ghost use Rattle.std.specs.Prelude.{◌≡◌, Bool, true, [], length, option_map};
ghost use Rattle.lists.specs.Lists.{keep, AnswersAs};
ghost use Rattle.lists.specs.Tables.{entries_of, packed};
ghost use Rattle.maps.specs.declared.keys.MapKey.{MapKey};
ghost use Rattle.maps.specs.Keys.{key_lt};
ghost use Rattle.maps.specs.MapTables.{map_table, retained, found, removed, accepts, inserted, insertion, keys_rise};

use crate::keys::MapKey;
use lists::table::{Blank, Table};

// What can stand in a map: it has a key, and is found by that of the type `Key`.
pub trait Entry: Blank {
    type Key: Copy;

    type Value: Copy;

    ghost key_of: { Self → MapKey };

    ghost value_of: { Self → Self.Value };

    ghost sought: { Self.Key → MapKey };

    fn key(&self) -> MapKey
        ensures { result ≡ key_of self.now };

    fn value(&self) -> Self::Value
        ensures { result ≡ value_of self.now };

    fn sought(key: Self::Key) -> MapKey
        ensures { result ≡ sought key };
}

#[repr(C)]
#[derive(Clone, Copy)]
pub struct SortedMap<E, const N: usize> {
    pub table: Table<E, N>,
}

impl<E: Entry, const N: usize> SortedMap<E, N> {
    #[tactic(auto, unfolding(lists::specs::Tables::packed))]
    pub fn new() -> Self
        ensures { result ≡ packed (map_table N E.BLANK) [] }
    {
        Self {
            table: Table::new(),
        }
    }

    #[tactic(auto, unfolding(lists::specs::Tables::entries_of))]
    pub fn entries(&self) -> &[E]
        ensures { result.now ≡ entries_of (map_table N E.BLANK) self.now }
    {
        self.table.entries()
    }

    // How many entries the map has: a stored count past the table is read as a full table.
    #[tactic(auto, unfolding(lists::specs::Tables::entries_of))]
    pub fn count(&self) -> usize
        ensures { result ≡ length (entries_of (map_table N E.BLANK) self.now) }
    {
        self.table.count()
    }

    // The entries that pass a test.
    #[tactic(auto, unfolding(lists::specs::Tables::entries_of, lists::specs::Tables::packed))]
    pub fn retain<F: Fn(&E) -> bool>(self, passes: F) -> Self
        requires { F.IsAlwaysCallable passes }
        ensures { (test : E → Bool) → AnswersAs F.Fn passes test → result ≡ retained (map_table N E.BLANK) test self }
    {
        Self {
            table: self.table.retain(passes),
        }
    }

    pub fn remove(self, key: E::Key) -> Self
        ensures { result ≡ removed (map_table N E.BLANK) E.key_of (E.sought key) self }
    {
        let key = E::sought(key);
        self.retain(|entry| key != entry.key())
    }

    fn find(&self, key: MapKey) -> Option<E>
        ensures { result ≡ found (map_table N E.BLANK) E.key_of key self.now }
    {
        self.entries()
            .iter()
            .copied()
            .find(|entry| key == entry.key())
    }

    // What the map holds at a key.
    pub fn get(&self, key: E::Key) -> Option<E::Value>
        ensures { result ≡ option_map E.value_of (found (map_table N E.BLANK) E.key_of (E.sought key) self.now) }
    {
        self.find(E::sought(key)).map(|entry| entry.value())
    }

    // Whether each key is less than the next.
    pub fn is_rising(&self) -> bool
        ensures { result ≡ keys_rise (map_table N E.BLANK) E.key_of self.now }
    {
        self.entries()
            .is_sorted_by(|low, high| low.key() < high.key())
    }

    fn accepts(&self, entry: E) -> bool
        ensures { result ≡ accepts (map_table N E.BLANK) E.key_of entry self.now }
    {
        self.find(entry.key()).is_some() || self.count() < N
    }

    fn below(self, key: MapKey) -> Self
        ensures { result ≡ retained (map_table N E.BLANK) (λ e. key_lt (E.key_of e) key) self }
    {
        self.retain(|entry| entry.key() < key)
    }

    fn above(self, key: MapKey) -> Self
        ensures { result ≡ retained (map_table N E.BLANK) (λ e. key_lt key (E.key_of e)) self }
    {
        self.retain(|entry| key < entry.key())
    }

    fn with(self, entry: E) -> Self
        requires { accepts (map_table N E.BLANK) E.key_of entry self ≡ true }
        ensures { result ≡ inserted (map_table N E.BLANK) E.key_of entry self }
    {
        let key = entry.key();
        let below = self.below(key);
        let above = self.above(key);
        Self {
            table: below
                .table
                .push_within(entry)
                .extend(above.entries().iter().copied()),
        }
    }

    // The map with the entry, instead of the one with its key if there is one. None where it is full and has none.
    pub fn insert(self, entry: E) -> Option<Self>
        ensures { result ≡ insertion (map_table N E.BLANK) E.key_of entry self }
    {
        if self.accepts(entry) {
            Some(self.with(entry))
        } else {
            None
        }
    }
}
