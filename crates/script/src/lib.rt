// Lines of a call script: a verb, and numbers each after one space.

#![tactic(auto)]

pub mod fault;
pub mod fields;
pub mod line;
pub mod number;
pub mod verb;
pub mod words;
