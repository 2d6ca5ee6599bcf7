// Columns 1 to 7 of an answer line, of which the first six are those of RULES.md, Desk, and the pieces that they are
// made of.

#![tactic(auto, using(crate::proofs::LineLaws::extended_both, crate::proofs::LineLaws::extended_none))]

pub mod columns;
pub mod line;
pub mod named;
pub mod pieces;

ghost use Rattle.answer_columns.specs.Claims.{ColumnClaims};

// What holds of the columns of every answer.
pub fn column_claims()
    ensures { ColumnClaims }
{}
