// Whether a slot table is one that its calls can have made: the test for damage, part by part.
ghost use Rattle.std.specs.Prelude.{◌≡◌, not, length, take, eqb};
ghost use Rattle.lists.specs.Lists.{all, keep};
ghost use Rattle.lists.specs.Below.{all_below};
ghost use Rattle.handles.specs.WellFormed.{
  is_within,
  is_below,
  occurrences_of,
  entries_due,
  stands_as_due,
  counts_within,
  well_formed,
};

use crate::arena::{Arena, SLOTS, Slot, slot_at};

fn is_within(count: usize, limit: usize) -> bool
    ensures { result ≡ is_within limit count }
{
    count <= SLOTS && count <= limit
}

#[tactic(auto, unfolding(crate::specs::WellFormed::counts_within))]
fn counts_within(a: Arena, limit: usize) -> bool
    ensures { result ≡ counts_within a limit }
{
    is_within(a.used, limit) && is_within(a.freed, limit) && is_within(a.live, limit)
}

fn generations_set(slots: &[Slot]) -> bool
    ensures { result ≡ all (λ s. not (eqb s.generation 0)) slots.now }
{
    slots.iter().all(|s| s.generation != 0)
}

fn filled_count(slots: &[Slot]) -> usize
    ensures { result ≡ length (keep (λ s. s.filled) slots.now) }
{
    slots.iter().filter(|s| s.filled).count()
}

fn entries_below(free: &[u32], used: usize) -> bool
    ensures { result ≡ all (is_below used) free.now }
{
    free.iter().all(|i| (*i as usize) < used)
}

#[tactic(auto, unfolding(crate::specs::WellFormed::occurrences_of))]
fn occurrences(slot: usize, free: &[u32]) -> usize
    ensures { result ≡ occurrences_of slot free.now }
{
    free.iter().filter(|i| slot == (**i as usize)).count()
}

// How often a slot stands in the free list: once where it is empty.
fn entries_due(s: Slot) -> usize
    ensures { result ≡ entries_due s }
{
    if s.filled { 0 } else { 1 }
}

#[tactic(auto, using(lists::proofs::BelowLaws::all_none, lists::proofs::BelowLaws::all_next))]
fn each_stands_as_due(slots: [Slot; SLOTS], used: usize, free: &[u32]) -> bool
    ensures { result ≡ all_below (stands_as_due slots free.now) used }
{
    // The same by `all` over the range got no proof.
    for i in 0..used {
        if occurrences(i, free) != entries_due(slot_at(slots, i)) {
            return false;
        }
    }
    true
}

// Whether the counts, the generations and the free list agree with the slots. `limit` is the configured number of
// slots.
#[tactic(auto, using(crate::proofs::SoundLaws::fronts), unfolding(crate::specs::WellFormed::well_formed))]
pub fn is_well_formed(a: Arena, limit: usize) -> bool
    ensures { result ≡ well_formed a limit }
{
    if !counts_within(a, limit) {
        return false;
    }
    let used = &a.slots[..a.used];
    let free = &a.free[..a.freed];
    generations_set(used)
        && a.live == filled_count(used)
        && entries_below(free, a.used)
        && each_stands_as_due(a.slots, a.used, free)
}
