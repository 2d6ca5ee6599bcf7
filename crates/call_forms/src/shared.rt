// The forms that several calls share. Behind a call's fields stand zeros.
ghost use Rattle.std.specs.Prelude.{◌≡◌, ◌≤◌, ◌+◌, [], ◌∷◌, ◌++◌, length, take, drop};
ghost use Rattle.lists.specs.Lists.{pad};
ghost use Rattle.call_numbers.specs.Inputs.{revision_numbers, named_numbers};
ghost use Rattle.call_numbers.specs.Words.{handle_numbers};

use call_fields::numbered::Numbered;
use calls::arguments::{HandleArguments, PointerArguments};
use handles::GenerationalHandle;

// The words with numbers written from a place on.
pub fn put(words: [u64; 32], at: usize, numbers: &[u64]) -> [u64; 32]
    requires { at + length numbers.now ≤ 32 }
    ensures { result ≡ take at words ++ numbers.now ++ drop (at + length numbers.now) words }
{
    let mut next = words;
    next[at..at + numbers.len()].copy_from_slice(numbers);
    next
}

pub fn bare_form(number: u64) -> [u64; 32]
    ensures { result ≡ pad 32 0 (number ∷ []) }
{
    put([0; 32], 0, &[number])
}

pub fn handle_form(number: u64, handle: GenerationalHandle) -> [u64; 32]
    ensures { result ≡ pad 32 0 (number ∷ handle_numbers handle) }
{
    put(
        [0; 32],
        0,
        &[number, handle.index.number(), handle.generation.number()],
    )
}

pub fn revision_form(number: u64, given: HandleArguments) -> [u64; 32]
    ensures { result ≡ pad 32 0 (number ∷ revision_numbers given) }
{
    put(handle_form(number, given.handle), 3, &[given.revision])
}

pub fn pointer_form(number: u64, named: PointerArguments) -> [u64; 32]
    ensures { result ≡ pad 32 0 (number ∷ named_numbers named) }
{
    let pointer = named.pointer;
    put(
        [0; 32],
        0,
        &[
            number,
            pointer.device,
            pointer.device_generation.number(),
            pointer.contact.number(),
            named.surface.index.number(),
            named.surface.generation.number(),
            named.revision,
        ],
    )
}
