// Calls written as numbers, and the strict test of numbers: only those that their call is written as are a form.

#![tactic(auto)]

pub mod arbitrations;
pub mod call;
pub mod geometries;
pub mod headers;
pub mod inputs;
pub mod panels;
pub mod payloads;
pub mod reads;
pub mod shared;
pub mod shortcuts;
