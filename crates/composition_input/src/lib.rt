// The calls on focus, captures and compositions.

#![tactic(auto)]

pub mod answer;
pub mod captures;
pub mod focus;
mod refusal;

ghost use Rattle.composition_input.specs.Claims.{InputClaims};

// The claims about these calls, as a theorem that the check names.
pub fn input_claims()
    ensures { InputClaims }
{}
