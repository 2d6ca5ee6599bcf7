// Generational handles, and the slot table that issues them. A handle names a slot by its index, and one life of that
// slot by a generation.

#![tactic(auto)]

pub mod arena;
pub mod well_formed;

ghost use Rattle.std.specs.Prelude.{◌≡◌};
ghost use Rattle.handles.specs.Handles.{handle_of, is_valid};
ghost use Rattle.handles.specs.Claims.{ArenaClaims};

use lists::table::Blank;

// The index that no slot has.
const NO_INDEX: u32 = 4294967295;

#[repr(C)]
#[derive(Clone, Copy, PartialEq, Eq, PartialOrd, Ord)]
pub struct GenerationalHandle {
    pub index: u32,
    pub generation: u32,
}

impl GenerationalHandle {
    // The handle of no slot.
    pub const INVALID: Self = Self {
        index: NO_INDEX,
        generation: 0,
    };

    // What stands where no handle was put yet.
    pub const ZERO: Self = Self {
        index: 0,
        generation: 0,
    };

    // Whether some slot could have issued the handle.
    pub fn is_valid(self) -> bool
        ensures { result ≡ is_valid self }
    {
        self.generation != 0 && self.index != NO_INDEX
    }
}

impl Blank for GenerationalHandle {
    ghost BLANK = { handle_of 0 0 };

    const BLANK: Self = Self::ZERO;
}

// The claims about every slot table: an allocation makes one handle live, and a released handle stays stale.
pub fn arena_claims()
    ensures { ArenaClaims }
{}
