// What a host hands in: a call as its numbers with the lists beside it. Only strict forms are read.

#![tactic(auto)]

pub mod hits;
pub mod message;
pub mod registrations;
