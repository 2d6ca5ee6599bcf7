// A line's fields as the numbers that a host hands in for the call, by rows of letters.

#![tactic(auto, unfolding(crate::specs::Rows::word_of, crate::specs::Rows::words_of, crate::specs::Rows::with_row, lists::specs::Tables::pushed_within, lists::specs::Tables::pushed, lists::specs::Tables::packed))]

ghost use mathlib.Core.List.{[], foldl, map};
ghost use Rattle.std.specs.Prelude.{◌≡◌, get_or};
ghost use Rattle.std.specs.Option.{option_map};
ghost use Rattle.lists.specs.Tables.{pushed_within};
ghost use Rattle.script_calls.specs.Rows.{row_of, most_of, word_of, bits_of, words_of, words as numbers, is_row_in_range, begun, with_row, asked_row, asked_rows};

use call_fields::numbered::Numbered;
use script::fields::{FieldType, as_at_most, field};
use script::line::Fields;
use script::number::Number;

// The first 32 numbers of a call, filled from the front, in fixed memory, as there is no heap. No `Table`: its entries
// are of a type with a blank value, and a number has none.
#[derive(Clone, Copy)]
pub struct Words {
    pub items: [u64; 32],
    pub len: usize,
}

// What was read of a line: the call's numbers, and the place behind the last field.
#[derive(Clone, Copy)]
pub struct Asked {
    pub words: Words,
    pub end: usize,
}

// The rows in the order of the calls' numbers, then the payloads of `route`, then the events of `arbitrate`.
const ROWS: [&str; 59] = [
    "",
    "uu",
    "uu",
    "uuiiuuuuuuuuuuu",
    "uu",
    "uuuiuuuiiuuuiiuuiiiiiiuu",
    "uuuiiuuuiiuuiiiiiiuuu",
    "uuuu",
    "uuuuuu",
    "uuu",
    "uuuuuu",
    "uuu",
    "uuuuuu",
    "uuu",
    "uuu",
    "uuu",
    "uu",
    "uuu",
    "uuuuusu",
    "uuuu",
    "uuu",
    "uu",
    "",
    "uuuuuuuuuumu",
    "uu",
    "",
    "uu",
    "uu",
    "uu",
    "uu",
    "uu",
    "uu",
    "",
    "",
    "",
    "uuiiu",
    "iiiiiiii",
    "uuiiiiussuuu",
    "uiiiiu",
    "uuu",
    "uu",
    "h",
    "uhuu",
    "uu",
    "u",
    "u",
    "",
    "uuu",
    "",
    "uuuuuu",
    "uuu",
    "",
    "uuu",
    "",
    "uuu",
    "",
    "",
    "u",
    "uuuuwwfwwu",
];

// The largest number of an unsigned letter.
fn most_of(letter: u8) -> u64
    ensures { result ≡ most_of letter }
{
    match letter {
        b'f' => 1,
        b'm' => 63,
        b'h' => 65535,
        b'w' => 4294967295,
        _ => u64::MAX,
    }
}

// A field as a number of the call: a signed one is its two's complement.
fn word_of(letter: u8, n: Number) -> Option<u64>
    ensures { result ≡ word_of letter n }
{
    match letter {
        b'i' => Some(i32::from_field(n)?.number()),
        b's' => Some(i16::from_field(n)?.number()),
        _ => as_at_most(n, most_of(letter)),
    }
}

// The numbers with one more, while there is a place.
fn push(words: Words, n: u64) -> Words
    ensures { result ≡ pushed_within numbers words n }
{
    let mut next = words;
    if next.len < 32 {
        next.items[next.len] = n;
        next.len += 1;
    }
    next
}

// The six bits of the modifiers, the lowest first.
fn push_bits(words: Words, n: u64) -> Words
    ensures { result ≡ foldl (pushed_within numbers) words (bits_of n) }
{
    let shift = push(words, n % 2);
    let control = push(shift, n / 2 % 2);
    let alt = push(control, n / 4 % 2);
    let meta = push(alt, n / 8 % 2);
    let caps_lock = push(meta, n / 16 % 2);
    push(caps_lock, n / 32 % 2)
}

fn push_field(words: Words, letter: u8, n: Number) -> Option<Words>
    ensures { result ≡ option_map (foldl (pushed_within numbers) words) (words_of letter n) }
{
    if letter == b'm' {
        return Some(push_bits(words, as_at_most(n, 63)?));
    }
    Some(push(words, word_of(letter, n)?))
}

// The fields of a row, from a place of the line on, behind what was read so far; none where one is out of its range.
fn with_row(asked: Asked, row: &[u8], fields: Fields, from: u8) -> Option<Asked>
    ensures { result ≡ with_row asked row.now fields from }
{
    let at = from as usize;
    let mut words = asked.words;
    for (k, letter) in row.iter().enumerate() {
        words = push_field(words, *letter, field(fields, at + k))?;
    }
    Some(Asked {
        words,
        end: at + row.len(),
    })
}

// A row of a table; past its end it has no letters.
fn row_in<'a>(rows: &[&'a str], row: u8) -> &'a [u8]
    ensures { result.now ≡ get_or (map (λ r. r.now) rows.now) row [] }
{
    rows.get(row as usize).copied().unwrap_or("").as_bytes()
}

fn with_row_of(asked: Asked, row: u8, fields: Fields, from: u8) -> Option<Asked>
    ensures { result ≡ with_row asked (row_of row) fields from }
{
    with_row(asked, row_in(&ROWS, row), fields, from)
}

fn begin(number: u8) -> Asked
    ensures { result ≡ begun number }
{
    let mut items = [0; 32];
    items[0] = number as u64;
    Asked {
        words: Words { items, len: 1 },
        end: 0,
    }
}

// A call by the row of its number.
pub fn asked_row(number: u8, fields: Fields) -> Option<Asked>
    ensures { result ≡ asked_row number fields }
{
    with_row_of(begin(number), number, fields, 0)
}

// The same with another row behind it.
pub fn asked_rows(number: u8, behind: u8, from: u8, fields: Fields) -> Option<Asked>
    ensures { result ≡ asked_rows number behind from fields }
{
    with_row_of(asked_row(number, fields)?, behind, fields, from)
}

// Whether the first fields of a line are in the ranges of a row.
pub fn is_row_in_range(row: u8, fields: Fields) -> bool
    ensures { result ≡ is_row_in_range (row_of row) fields 0 }
{
    with_row_of(begin(0), row, fields, 0).is_some()
}
