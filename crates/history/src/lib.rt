// What holds of every list of calls on a counter from its start.

#![tactic(auto)]

ghost use Rattle.history.specs.Demand.{Demand3, NeverDamaged};
ghost use Rattle.history.specs.ReleaseOrder.{ReleaseOrder};

// Demand 3, nothing lost: every list of calls lists exactly the open presses concerned, and the router holds exactly
// the open ones.
pub fn demand_3()
    ensures { Demand3 }
{}

// What a router lists for a panel, a device or a view rises in release order (RULES.md), whatever its history.
pub fn release_order()
    ensures { ReleaseOrder }
{}

// No list of calls, of whatever kind, leads to a counter that the damage test rejects, and no call after it answers 42.
pub fn never_damaged()
    ensures { NeverDamaged }
{}
