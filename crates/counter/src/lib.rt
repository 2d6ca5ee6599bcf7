// The counter as a whole: one value holds a registry and a router, and one function takes any call of the port.

#![tactic(auto)]

pub mod answer;
pub mod step;
