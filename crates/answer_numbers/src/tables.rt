// Tables and maps: how many entries, and the numbers of each.
ghost use Rattle.lists.specs.Tables.{table, entries_of};
ghost use Rattle.maps.specs.MapTables.{map_table};
ghost use Rattle.answer_numbers.specs.Numbers.{list_numbers};

use crate::numbered::{Numbered, write_list};
use crate::writer::Writer;
use lists::table::{Blank, Table};
use maps::sorted_map::{Entry, SortedMap};

// The entries in their order: layers lowest first, traces oldest first.
impl<E: Blank + Numbered, const N: usize> Numbered for Table<E, N> {
    ghost numbers = { λ t. list_numbers E.numbers (entries_of (table N E.BLANK) t) };

    fn write(&self, to: &mut Writer<'_>) {
        write_list(self.entries(), to);
    }
}

// The entries by rising key.
impl<E: Entry + Numbered, const N: usize> Numbered for SortedMap<E, N> {
    ghost numbers = { λ t. list_numbers E.numbers (entries_of (map_table N E.BLANK) t) };

    fn write(&self, to: &mut Writer<'_>) {
        write_list(self.entries(), to);
    }
}
