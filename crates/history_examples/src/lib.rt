// Demand 3's premises: a list of calls that meets them, and for each of them a list on which nothing but it is missing
// and the claim fails.

#![tactic(auto)]

ghost use Rattle.history_examples.specs.Claims.{Demand3Examples};

pub fn demand_3_examples()
    ensures { Demand3Examples }
{}
