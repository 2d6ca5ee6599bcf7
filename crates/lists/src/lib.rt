// Definitions and laws over lists, orders and maps that every table shares. They stand in specs/ and proofs/.

#![tactic(auto)]

pub mod array;
pub mod table;
