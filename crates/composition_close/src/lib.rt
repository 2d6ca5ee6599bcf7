// The close of a panel, and the shutdown of the whole registry.

#![tactic(auto)]

pub mod answer;
pub mod close;
pub mod detach;
pub mod shutdown;

ghost use Rattle.composition_close.specs.Claims.{CloseClaims};

// The claims about these calls, as a theorem that the check names.
pub fn close_claims()
    ensures { CloseClaims }
{}
