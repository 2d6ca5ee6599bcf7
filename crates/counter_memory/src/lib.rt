// The counter as memory of a host: every enum of its state is a number, so that an exported function can take a
// reference to it.

#![tactic(auto)]

pub mod arrays;
pub mod bindings;
pub mod events;
pub mod memory;
pub mod optionals;
pub mod registry;
pub mod router;
pub mod shortcuts;
pub mod surfaces;
pub mod traces;
pub mod views;

ghost use Rattle.counter_memory.specs.Claims.{MemoryClaims};

// The claims about a counter as memory, as a theorem that the check names.
pub fn memory_claims()
    ensures { MemoryClaims }
{}
