// Answer lines, put piece by piece into a buffer that the caller lends, and digests of lists of numbers.

#![tactic(auto)]

pub mod digest;
pub mod put;
