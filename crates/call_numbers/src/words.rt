// The fields of a call at their places among its first 32 numbers.
ghost use Rattle.std.specs.Prelude.{◌≡◌, get_or};
ghost use Rattle.call_numbers.specs.Words.{handle_at, optional_at, pointer_at};

use call_fields::groups::{OptionalNumbers, handle_of, optional_of, pointer_of};
use handles::GenerationalHandle;
use maps::keys::CompositionPointerId;

// Past the end a word is 0.
pub fn word(words: [u64; 32], i: usize) -> u64
    ensures { result ≡ get_or words i 0 }
{
    words.get(i).copied().unwrap_or(0)
}

pub fn handle_at(words: [u64; 32], at: u8) -> GenerationalHandle
    ensures { result ≡ handle_at words at }
{
    let i = at as usize;
    handle_of(word(words, i), word(words, i + 1))
}

pub fn optional_at(words: [u64; 32], at: u8) -> Option<GenerationalHandle>
    ensures { result ≡ optional_at words at }
{
    let i = at as usize;
    optional_of(OptionalNumbers {
        present: word(words, i),
        index: word(words, i + 1),
        generation: word(words, i + 2),
    })
}

pub fn pointer_at(words: [u64; 32], at: u8) -> CompositionPointerId
    ensures { result ≡ pointer_at words at }
{
    let i = at as usize;
    pointer_of(word(words, i), word(words, i + 1), word(words, i + 2))
}
