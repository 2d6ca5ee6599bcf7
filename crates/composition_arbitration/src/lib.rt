// Arbitration: which panels get an event, which one takes it, and the trace that is kept.

#![tactic(auto)]

pub mod arbitrate;
pub mod targets;
pub mod trace;
pub mod walk;

ghost use Rattle.composition_arbitration.specs.Claims.{WalkClaims, ArbitrationClaims};

// What holds of every walk.
pub fn walk_claims()
    ensures { WalkClaims }
{}

// What holds of every arbitration.
pub fn arbitration_claims()
    ensures { ArbitrationClaims }
{}
