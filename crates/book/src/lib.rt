// The book (RULES.md, Book): what is open and what is owed, read from calls and answers alone. Of the crates below it
// takes types only, and functions of `lists`.

#![tactic(auto)]

ghost use Rattle.book.specs.Claims.{BookClaims};

// The book on examples, one for each sentence of its rules.
pub fn book_claims()
    ensures { BookClaims }
{}
