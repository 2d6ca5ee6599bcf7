// The types of a call's fields, by their numbers.

#![tactic(auto, unfolding(crate::specs::Narrow::within, crate::specs::Narrow::signed_of, crate::specs::Narrow::short_of))]

ghost use Rattle.std.specs.Prelude.{◌≡◌, ℕ, ◌<◌};
ghost use Rattle.std.specs.Int.{w16, w32};
ghost use Rattle.std.proofs.Common.{of_z, SFits};
ghost use Rattle.call_fields.specs.Narrow.{within, is_one, one_if, signed_of, short_of};
ghost use Rattle.call_fields.specs.Back.{within_back, flag_back, signed_back, short_back};

// A number out of the type's range is read as 0 or the first choice. A signed number is its two's complement.
pub trait Numbered: Sized {
    ghost value_of: { ℕ → Self };

    ghost number_of: { Self → ℕ };

    // What holds of each value of the type.
    ghost fits: { Self → Type 0 } = { λ _. Unit {0} };

    fn from_number(n: u64) -> Self
        ensures { result ≡ value_of n };

    fn number(self) -> u64
        ensures { result ≡ number_of self };

    // A value is read back from its number.
    ghost back: { (x : Self) → fits x → value_of (number_of x) ≡ x };
}

impl Numbered for bool {
    ghost value_of = { is_one };

    ghost number_of = { one_if };

    ghost back = { λ x h. flag_back x };

    fn from_number(n: u64) -> bool {
        n == 1
    }

    fn number(self) -> u64 {
        u64::from(self)
    }
}

impl Numbered for u8 {
    ghost value_of = { within 256 };

    ghost number_of = { λ x. x };

    ghost fits = { λ x. x < 256 };

    ghost back = { within_back 256 };

    fn from_number(n: u64) -> u8 {
        u8::try_from(n).unwrap_or(0)
    }

    fn number(self) -> u64 {
        u64::from(self)
    }
}

impl Numbered for u16 {
    ghost value_of = { within 65536 };

    ghost number_of = { λ x. x };

    ghost fits = { λ x. x < 65536 };

    ghost back = { within_back 65536 };

    fn from_number(n: u64) -> u16 {
        u16::try_from(n).unwrap_or(0)
    }

    fn number(self) -> u64 {
        u64::from(self)
    }
}

impl Numbered for u32 {
    ghost value_of = { within 4294967296 };

    ghost number_of = { λ x. x };

    ghost fits = { λ x. x < 4294967296 };

    ghost back = { within_back 4294967296 };

    fn from_number(n: u64) -> u32 {
        u32::try_from(n).unwrap_or(0)
    }

    fn number(self) -> u64 {
        u64::from(self)
    }
}

impl Numbered for i16 {
    ghost value_of = { short_of };

    ghost number_of = { of_z w16 };

    ghost fits = { SFits w16 };

    ghost back = { short_back };

    fn from_number(n: u64) -> i16 {
        u16::from_number(n).cast_signed()
    }

    fn number(self) -> u64 {
        u64::from(self.cast_unsigned())
    }
}

impl Numbered for i32 {
    ghost value_of = { signed_of };

    ghost number_of = { of_z w32 };

    ghost fits = { SFits w32 };

    ghost back = { signed_back };

    fn from_number(n: u64) -> i32 {
        u32::from_number(n).cast_signed()
    }

    fn number(self) -> u64 {
        u64::from(self.cast_unsigned())
    }
}
