// The registry as a value: its start, its damage test, and how a call leaves it.

#![tactic(auto)]

pub mod damage;
pub mod registry;
pub mod start;
