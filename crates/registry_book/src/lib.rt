// The book against the registry: after every accepted call the captures and panels' views that the book has are the
// registry's.

#![tactic(auto)]

ghost use Rattle.registry_book.specs.Claims.{RegistryBookClaims};

// What the book reads from calls and answers is what the registry holds, as a theorem that the check names.
pub fn registry_book_claims()
    ensures { RegistryBookClaims }
{}
