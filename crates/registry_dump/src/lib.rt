// The numbers of a registry: as text, and as the digest of its dump.

#![tactic(auto, using(answer_numbers::proofs::WriteLaws::written_both))]

pub mod registry;
