// What holds of every list of a host's calls on a counter in memory.

#![tactic(auto)]

ghost use Rattle.host_history.specs.Claims.{Demand3OfHosts};

// Demand 3 holds of what the library leaves and answers.
pub fn demand_3_of_hosts()
    ensures { Demand3OfHosts }
{}
