// Bounded maps with strictly rising keys: the captures of a view, the sequence numbers of devices, the open presses.

#![tactic(auto)]

pub mod bindings;
pub mod captures;
pub mod keys;
pub mod sequences;
pub mod sorted_map;

ghost use Rattle.maps.specs.Claims.{Claims};

// The claims about the maps and their keys, as a theorem that the check names.
pub fn map_claims()
    ensures { Claims }
{}
