// Calls as numbers: the call's number, then its fields.

#![tactic(auto)]

pub mod arbitrations;
pub mod call;
pub mod events;
pub mod geometries;
pub mod inputs;
pub mod panels;
pub mod payloads;
pub mod reads;
pub mod shortcuts;
pub mod words;
