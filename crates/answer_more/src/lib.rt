// What a call shows beside its handle, its deliveries and its releases: column 8 of an answer line, or the words behind
// a host's answer.

#![tactic(auto, using(answer_numbers::proofs::WriteLaws::written_both))]

pub mod closing;
pub mod counts;
pub mod more;
pub mod none;
pub mod shown;
