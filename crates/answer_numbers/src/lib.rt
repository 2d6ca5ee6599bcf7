// The numbers of an answer and of a dump: what each type of the state is written as, one number after the other.

#![tactic(auto, using(crate::proofs::WriteLaws::written_both, crate::proofs::WriteLaws::written_none))]

pub mod arenas;
pub mod events;
pub mod groups;
pub mod numbered;
pub mod panels;
pub mod presses;
pub mod sink;
pub mod tables;
pub mod traces;
pub mod views;
pub mod word;
pub mod writer;
