ghost use Rattle.std.specs.Prelude.{◌≡◌, ◌^◌, ◌<◌};
ghost use Rattle.std.specs.Int.Signed.{mag};
ghost use Rattle.geometry.specs.Rounding.{half_away, round_i32};

// Half of `twice`, where a half goes away from zero.
fn half_away(twice: i64) -> i64
    requires { mag twice < 2 ^ 33 }
    ensures { result ≡ half_away twice }
{
    if twice >= 0 {
        (twice + 1) / 2
    } else {
        (twice - 1) / 2
    }
}

// The nearest i32, halves away from zero; the range is tested before rounding.
// Twice a float in range is exact, so half of its whole part is the nearest number.
pub fn round_i32(value: f64) -> Option<i32>
    ensures { result ≡ round_i32 value }
{
    if value >= -2147483648.0 {
        if value <= 2147483647.0 {
            let twice = std::num::truncating_f64_to_i64(value * 2.0);
            return Some(half_away(twice) as i32);
        }
    }
    None
}
