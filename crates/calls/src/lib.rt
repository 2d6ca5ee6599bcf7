// Every call of the port as a value: which call, its arguments, and what it shows.

#![tactic(auto)]

pub mod arguments;
pub mod call;
pub mod shown;
