// What holds of every list of calls that a host makes by the in-place entries.

#![tactic(auto)]

ghost use Rattle.in_place_history.specs.Claims.{SameSteps, Demand3InPlace};

// Each entry is a step of demand 3's history.
pub fn same_steps()
    ensures { SameSteps }
{}

// Demand 3 holds of what the entries leave and answer.
pub fn demand_3_in_place()
    ensures { Demand3InPlace }
{}
