// A number as a script writes it: decimal, no leading zero, and a minus only before a negative one.
ghost use Rattle.std.specs.Prelude.{◌≡◌};
ghost use Rattle.script.specs.Lines.{zero_number};
ghost use Rattle.script.specs.Numbers.{push_digit, digits_of, magnitude_of, number_of};

use lists::table::Blank;

#[derive(Clone, Copy)]
pub struct Number {
    pub negative: bool,
    pub magnitude: u64,
}

impl Blank for Number {
    ghost BLANK = { zero_number };

    const BLANK: Self = Self {
        negative: false,
        magnitude: 0,
    };
}

// The number with one more digit at its end, if it still fits 64 bits.
fn push_digit(n: u64, b: u8) -> Option<u64>
    ensures { result ≡ push_digit n b }
{
    if !b.is_ascii_digit() {
        return None;
    }
    n.checked_mul(10)?.checked_add((b - b'0') as u64)
}

// The number that a row of digits makes.
fn read_digits(s: &[u8]) -> Option<u64>
    ensures { result ≡ digits_of s.now }
{
    let mut n = 0;
    for b in s {
        n = push_digit(n, *b)?;
    }
    Some(n)
}

// The number that a word without a sign writes.
fn read_magnitude(s: &[u8]) -> Option<u64>
    ensures { result ≡ magnitude_of s.now }
{
    match s {
        [] => None,
        [b'0', _, ..] => None,
        _ => read_digits(s),
    }
}

// The number that a word writes. There is no minus before 0.
pub fn read_number(s: &[u8]) -> Option<Number>
    ensures { result ≡ number_of s.now }
{
    match s {
        [b'-', ..] => match read_magnitude(&s[1..])? {
            0 => None,
            magnitude => Some(Number {
                negative: true,
                magnitude,
            }),
        },
        _ => Some(Number {
            negative: false,
            magnitude: read_magnitude(s)?,
        }),
    }
}
