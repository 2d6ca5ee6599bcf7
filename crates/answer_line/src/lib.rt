// A whole answer line: columns 1 to 8, the digests, and the line feed.

#![tactic(auto, using(answer_columns::proofs::LineLaws::extended_both, answer_columns::proofs::LineLaws::extended_none, answer_columns::proofs::LineLaws::same_buffer, answer_columns::proofs::LineLaws::buffer_of, answer_columns::proofs::LineLaws::place_of,))]

pub mod line;
pub mod plain;
