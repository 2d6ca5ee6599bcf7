// The fields of a line by their range. A number out of a field's range is none of the field's.
ghost use Rattle.std.specs.Prelude.{◌≡◌, Option, get_or};
ghost use Rattle.lists.specs.Numbers.{max_u64};
ghost use Rattle.script.specs.declared.number.Number.{Number};
ghost use Rattle.script.specs.Lines.{zero_number};
ghost use Rattle.script.specs.Ranges.{unsigned_of, sized_of, signed_of, flag_of};

use crate::line::Fields;
use crate::number::Number;
use lists::array::item_or;
use lists::table::Blank;

// The number at an index; past the table it is 0.
pub fn field(fields: Fields, i: usize) -> Number
    ensures { result ≡ get_or fields.items i zero_number }
{
    item_or(&fields.items, i, Number::BLANK)
}

// A number from 0 to `most`.
pub fn as_at_most(n: Number, most: u64) -> Option<u64>
    ensures { result ≡ unsigned_of most n }
{
    (!n.negative && n.magnitude <= most).then_some(n.magnitude)
}

// A number that fits a signed 64 bits with either sign.
fn as_i64(n: Number) -> Option<i64>
    ensures { result ≡ sized_of 9223372036854775807 n }
{
    let magnitude = i64::try_from(n.magnitude).ok()?;
    if n.negative {
        Some(-magnitude)
    } else {
        Some(magnitude)
    }
}

// A type that a field may have, with the numbers in its range.
pub trait FieldType: Sized {
    ghost value_of: { Number → Option Self };

    fn from_field(n: Number) -> Option<Self>
        ensures { result ≡ value_of n };
}

impl FieldType for u64 {
    ghost value_of = { unsigned_of max_u64 };

    fn from_field(n: Number) -> Option<u64> {
        as_at_most(n, u64::MAX)
    }
}

impl FieldType for u32 {
    ghost value_of = { unsigned_of 4294967295 };

    fn from_field(n: Number) -> Option<u32> {
        u32::try_from(as_at_most(n, u64::MAX)?).ok()
    }
}

impl FieldType for u16 {
    ghost value_of = { unsigned_of 65535 };

    fn from_field(n: Number) -> Option<u16> {
        u16::try_from(as_at_most(n, u64::MAX)?).ok()
    }
}

impl FieldType for u8 {
    ghost value_of = { unsigned_of 255 };

    fn from_field(n: Number) -> Option<u8> {
        u8::try_from(as_at_most(n, u64::MAX)?).ok()
    }
}

impl FieldType for bool {
    ghost value_of = { flag_of };

    fn from_field(n: Number) -> Option<bool> {
        Some(as_at_most(n, 1)? == 1)
    }
}

impl FieldType for i32 {
    ghost value_of = { signed_of 2147483647 };

    fn from_field(n: Number) -> Option<i32> {
        i32::try_from(as_i64(n)?).ok()
    }
}

impl FieldType for i16 {
    ghost value_of = { signed_of 32767 };

    fn from_field(n: Number) -> Option<i16> {
        i16::try_from(as_i64(n)?).ok()
    }
}
