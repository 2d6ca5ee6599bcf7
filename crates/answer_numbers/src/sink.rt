// Where numbers go: into a column, into a dump that is written out, into a digest, or into words for a host.
ghost use Rattle.std.specs.Prelude.{◌≡◌};
ghost use Rattle.answer_numbers.specs.Claims.{NumberClaims};
ghost use Rattle.answer_numbers.specs.Numbers.{sink_from};

use answer_text::digest::Digest;

// A column writes a signed number with its sign; the others add 2^31 to it. A word is eight bytes, and words have
// nothing between them.
// An enum and no trait: the kinds differ in `Writer::plain` and `Writer::signed` alone, and a trait would be a type
// parameter of every impl of `Numbered`.
#[derive(Clone, Copy)]
pub enum SinkKind {
    Column,
    Dump,
    Digest,
    Words,
}

// The place in the text after the last number, and the digest of the numbers so far.
#[derive(Clone, Copy)]
pub struct Sink {
    pub kind: SinkKind,
    pub at: usize,
    pub is_first: bool,
    pub digest: Digest,
}

impl Sink {
    // A sink whose text, if it has any, starts at a place.
    pub fn new(kind: SinkKind, at: usize) -> Sink
        ensures { result ≡ sink_from kind at }
    {
        Sink {
            kind,
            at,
            is_first: true,
            digest: Digest::new(),
        }
    }
}

// What holds of all numbers that are taken.
pub fn number_claims()
    ensures { NumberClaims }
{}
