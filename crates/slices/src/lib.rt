// Parts of lent slices of numbers: rows of equal size, and tables with a stored count. The laws of reading and writing
// them are in proofs/.

#![tactic(auto)]

ghost use Rattle.std.specs.Prelude.{◌≡◌};
ghost use Rattle.slices.specs.Parts.{least};

// A stored count, cut at the number of places: `min`, by the definition that tables with a stored count cite.
pub fn least(k: usize, n: usize) -> usize
    ensures { result ≡ least k n }
{
    k.min(n)
}
