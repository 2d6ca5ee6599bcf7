// The calls on the registry alone that list nothing, each group as one function of the call.

#![tactic(auto)]

pub mod steps;

ghost use Rattle.registry_step.specs.Claims.{StepClaims};

// What a refusal of these calls leaves, as a theorem that the check names.
pub fn step_claims()
    ensures { StepClaims }
{}
