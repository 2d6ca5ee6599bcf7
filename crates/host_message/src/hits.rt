// The hits beside a call, as numbers. Behind the count's entries stand zeros.
ghost use Rattle.std.specs.Prelude.{◌≡◌};
ghost use Rattle.lists.specs.Below.{all_below};
ghost use Rattle.host_message.specs.Hits.{hits_of, is_hit_form, hit_form};

use handles::GenerationalHandle;
use records::trace::Hits;

// A struct of its own, since the structs that C hands in have no type parameters.
#[repr(C)]
#[derive(Clone, Copy)]
pub struct HitsNumbers {
    pub items: [GenerationalHandle; 16],
    pub len: usize,
}

pub fn hits_of(numbers: HitsNumbers) -> Hits
    ensures { result ≡ hits_of numbers }
{
    let items = numbers.items;
    Hits {
        items,
        len: numbers.len,
    }
}

fn is_hit_form(len: usize, at: usize, hit: GenerationalHandle) -> bool
    ensures { result ≡ is_hit_form len at hit }
{
    at < len || hit.index == 0 && hit.generation == 0
}

pub fn are_hits_form(hits: HitsNumbers) -> bool
    ensures { result ≡ all_below (hit_form hits) 16 }
{
    (0..16).all(|i| is_hit_form(hits.len, i, hits.items[i]))
}
