// The answer of `step` as words for a host: numbers of eight bytes each, the low byte first.

#![tactic(auto, using(answer_numbers::proofs::WriteLaws::written_both))]

pub mod answered;
pub mod listed;
pub mod read;
