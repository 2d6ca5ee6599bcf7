// A slot table: slots are issued from the free list, the last freed first, and then from those never used.
// What a slot holds stands elsewhere, in an array by slot index.
ghost use Rattle.std.specs.Prelude.{◌≡◌, ◌<◌, not, get_or};
ghost use Rattle.lists.specs.Lists.{all};
ghost use Rattle.lists.specs.Tables.{packed};
ghost use Rattle.handles.specs.Slots.{
  no_slot,
  empty_arena,
  lookup_of,
  status_of,
  has_room,
  allocated,
  from_free,
  from_unused,
  released,
  released_live,
  used_places,
  none_exhausted,
  is_exhausted,
  refused,
  handles_table,
  live_handles,
};

use crate::GenerationalHandle;
use lists::array::{item_or, with_item};
use lists::table::Table;

// The places of the table: one form holds windows, views and panels.
pub const SLOTS: usize = 64;

// A slot at this generation is not released: there is none after it.
const LAST_GENERATION: u32 = 4294967295;

// One place of the table. The generation is that of the handle last issued for it, or, where it is empty, of the next.
#[repr(C)]
#[derive(Clone, Copy, PartialEq, Eq)]
pub struct Slot {
    pub generation: u32,
    pub filled: bool,
}

impl Slot {
    // A slot that was never used.
    pub const UNUSED: Self = Self {
        generation: 0,
        filled: false,
    };

    // What the slot, once used, is to a handle's generation.
    fn status_of(self, generation: u32) -> SlotStatus
        ensures { result ≡ status_of self generation }
    {
        if self.filled && self.generation == generation {
            SlotStatus::Live
        } else {
            SlotStatus::Stale
        }
    }

    // Whether the slot is filled, and cannot be released.
    fn is_exhausted(self) -> bool
        ensures { result ≡ is_exhausted self }
    {
        self.filled && self.generation == LAST_GENERATION
    }
}

#[derive(Clone, Copy, PartialEq, Eq)]
pub enum SlotStatus {
    Live,
    Invalid,
    Stale,
}

// The first `used` slots were issued at some time; the first `freed` places of `free` are the indices of the empty
// ones. A host's memory has this very struct, and C knows no table with parameters, so the counts are fields.
#[repr(C)]
#[derive(Clone, Copy)]
pub struct Arena {
    pub slots: [Slot; SLOTS],
    pub used: usize,
    pub free: [u32; SLOTS],
    pub freed: usize,
    pub live: usize,
}

impl Arena {
    #[tactic(auto, unfolding(crate::specs::Slots::empty_arena))]
    pub fn new() -> Self
        ensures { result ≡ empty_arena }
    {
        Self {
            slots: [Slot::UNUSED; SLOTS],
            used: 0,
            free: [0; SLOTS],
            freed: 0,
            live: 0,
        }
    }

    // Whether a slot can be issued: one is free or was never used, and every count is within the table.
    #[tactic(auto, unfolding(crate::specs::Slots::has_room))]
    fn has_room(&self) -> bool
        ensures { result ≡ has_room self.now.used self.now.freed self.now.live }
    {
        self.used <= SLOTS
            && self.freed <= SLOTS
            && self.live < SLOTS
            && (self.freed > 0 || self.used < SLOTS)
    }
}

// Past the end of the table a read is an empty slot.
pub fn slot_at(slots: [Slot; SLOTS], i: usize) -> Slot
    ensures { result ≡ get_or slots i no_slot }
{
    item_or(&slots, i, Slot::UNUSED)
}

// Whether a handle names a slot's present life, no slot that was ever used, or a life that is over.
#[tactic(auto, unfolding(crate::specs::Slots::lookup_of))]
pub fn lookup(a: Arena, h: GenerationalHandle) -> SlotStatus
    ensures { result ≡ lookup_of a h }
{
    let i = h.index as usize;
    if h.is_valid() && i < a.used {
        slot_at(a.slots, i).status_of(h.generation)
    } else {
        SlotStatus::Invalid
    }
}

#[derive(Clone, Copy)]
pub struct Allocation {
    pub handle: GenerationalHandle,
    pub arena: Arena,
}

// No well-formed arena has an entry of the free list that is past the used slots.
fn allocate_freed(a: Arena) -> Allocation
    requires { (0 < a.freed) × (a.live < 64) }
    ensures { result ≡ from_free a }
{
    let last = a.freed - 1;
    let index = item_or(&a.free, last, 0);
    let at = index as usize;
    let generation = slot_at(a.slots, at).generation;
    let issued = Slot {
        generation,
        filled: true,
    };
    Allocation {
        handle: GenerationalHandle { index, generation },
        arena: Arena {
            slots: with_item(a.slots, at, issued),
            freed: last,
            live: a.live + 1,
            ..a
        },
    }
}

fn allocate_unused(a: Arena, first_generation: u32) -> Allocation
    requires { (a.used < 64) × (a.live < 64) }
    ensures { result ≡ from_unused a first_generation }
{
    let issued = Slot {
        generation: first_generation,
        filled: true,
    };
    Allocation {
        handle: GenerationalHandle {
            index: a.used as u32,
            generation: first_generation,
        },
        arena: Arena {
            slots: with_item(a.slots, a.used, issued),
            used: a.used + 1,
            live: a.live + 1,
            ..a
        },
    }
}

// Issues the slot freed last, else the next never used, with `first_generation`. Where there is none, the handle is
// INVALID: no Option, since a caller has tested its limit before, and an allocation cannot fail.
#[tactic(auto, using(crate::proofs::RoomLaws::room), unfolding(crate::specs::Slots::allocated))]
pub fn allocate(a: Arena, first_generation: u32) -> Allocation
    ensures { result ≡ allocated a first_generation }
{
    if !a.has_room() {
        Allocation {
            handle: GenerationalHandle::INVALID,
            arena: a,
        }
    } else if a.freed > 0 {
        allocate_freed(a)
    } else {
        allocate_unused(a, first_generation)
    }
}

// Why a handle cannot be released.
#[derive(Clone, Copy, PartialEq, Eq)]
pub enum ReleaseError {
    Invalid,
    Stale,
    GenerationExhausted,
}

pub type ReleaseOutcome = Result<(), ReleaseError>;

#[derive(Clone, Copy)]
pub struct ReleaseAnswer {
    pub outcome: ReleaseOutcome,
    pub arena: Arena,
}

fn refused(error: ReleaseError, arena: Arena) -> ReleaseAnswer
    ensures { result ≡ refused error arena }
{
    ReleaseAnswer {
        outcome: Err(error),
        arena,
    }
}

// Empties the slot of a live handle. No well-formed arena with a live slot has a full free list or a live count of 0.
fn release_live(a: Arena, h: GenerationalHandle) -> ReleaseAnswer
    ensures { result ≡ released_live a h }
{
    if h.generation == LAST_GENERATION {
        return refused(ReleaseError::GenerationExhausted, a);
    }
    if a.freed >= SLOTS || a.live == 0 {
        return refused(ReleaseError::Invalid, a);
    }
    let emptied = Slot {
        generation: h.generation + 1,
        filled: false,
    };
    ReleaseAnswer {
        outcome: Ok(()),
        arena: Arena {
            slots: with_item(a.slots, h.index as usize, emptied),
            used: a.used,
            free: with_item(a.free, a.freed, h.index),
            freed: a.freed + 1,
            live: a.live - 1,
        },
    }
}

// Ends a live handle: its slot is empty, moves on by one generation, and is the next to be issued.
#[tactic(auto, unfolding(crate::specs::Slots::released))]
pub fn release(a: Arena, h: GenerationalHandle) -> ReleaseAnswer
    ensures { result ≡ released a h }
{
    match lookup(a, h) {
        SlotStatus::Live => release_live(a, h),
        SlotStatus::Invalid => refused(ReleaseError::Invalid, a),
        SlotStatus::Stale => refused(ReleaseError::Stale, a),
    }
}

// How many slots of the table were used: all, where the count is past its end.
pub fn used_places(a: Arena) -> usize
    ensures { result ≡ used_places a }
{
    a.used.min(SLOTS)
}

fn can_be_released(slots: &[Slot]) -> bool
    ensures { result ≡ all (λ s. not (is_exhausted s)) slots.now }
{
    slots.iter().all(|s| !s.is_exhausted())
}

// Whether every filled slot can be released: none is at the last generation.
#[tactic(auto, using(crate::proofs::LiveLaws::front_exhausted))]
pub fn preflight_release(a: Arena) -> bool
    ensures { result ≡ none_exhausted a }
{
    can_be_released(&a.slots[..used_places(a)])
}

pub type Handles = Table<GenerationalHandle, SLOTS>;

// The handles of the filled slots, in slot order.
#[tactic(auto, using(crate::proofs::LiveLaws::turns))]
pub fn live_handles(a: Arena) -> Handles
    ensures { result ≡ packed handles_table (live_handles a) }
{
    let mut live = Handles::new();
    for i in 0..used_places(a) {
        let slot = a.slots[i];
        if slot.filled {
            live.push_in_place(GenerationalHandle {
                index: i as u32,
                generation: slot.generation,
            });
        }
    }
    live
}
