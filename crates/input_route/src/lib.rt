// `route`: one event of a device, from its checks to the panels that get it and the presses that it opens, moves or
// ends.

#![tactic(auto)]

pub mod checks;
pub mod route;
