// The digest of a list of numbers: two remainders, each number taken in by its two halves.
ghost use Rattle.std.specs.Prelude.{◌^◌, ◌<◌, ◌≤◌, ◌≡◌};
ghost use Rattle.answer_text.specs.Digests.{mix, start_digest, add_number, value_of, DigestClaims};

#[derive(Clone, Copy)]
pub struct Digest {
    pub a: u64,
    pub b: u64,
}

// One step of a remainder. The state is reduced first, so that nothing wraps; that changes no answer.
fn mix<const FACTOR: u64, const MODULUS: u64>(state: u64, part: u64) -> u64
    requires factor { FACTOR ≤ 2 ^ 30 }
    requires some { 0 < MODULUS }
    requires modulus { MODULUS ≤ 2 ^ 32 }
    requires half { part < 2 ^ 32 }
    ensures { result ≡ mix FACTOR MODULUS state part }
{
    (state % MODULUS * FACTOR + part + 1) % MODULUS
}

impl Digest {
    pub fn new() -> Self
        ensures { result ≡ start_digest }
    {
        Digest { a: 7, b: 11 }
    }

    pub fn add(self, n: u64) -> Self
        ensures { result ≡ add_number self n }
    {
        let low = n % 4294967296;
        let high = n / 4294967296;
        Digest {
            a: mix::<1000003, 4294967291>(mix::<1000003, 4294967291>(self.a, low), high),
            b: mix::<998244353, 4294967279>(mix::<998244353, 4294967279>(self.b, low), high),
        }
    }

    // The digest as one number. The two remainders are below 2^32 in every digest that `new` and `add` make.
    pub fn value(self) -> u64
        ensures { result ≡ value_of self }
    {
        self.a % 4294967291 * 4294967296 + self.b % 4294967279
    }
}

// What holds of every digest, and the worked examples of the format.
pub fn digest_claims()
    ensures { DigestClaims }
{}
