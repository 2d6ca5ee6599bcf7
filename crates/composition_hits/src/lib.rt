// The hit test of a view: the panels under a point, topmost first, as numbers in a lent buffer.

#![tactic(auto)]

mod buffer;
pub mod stack;
pub mod table;

ghost use Rattle.composition_hits.specs.Claims.{HitClaims};

// What holds of every hit test.
pub fn hit_claims()
    ensures { HitClaims }
{}
