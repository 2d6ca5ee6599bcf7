// The calls that alter nothing, as one function of the call.

#![tactic(auto)]

pub mod steps;
