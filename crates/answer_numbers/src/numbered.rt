// What is written as numbers, and where they are put.
ghost use Rattle.std.specs.Prelude.{ℕ, List, [], ◌∷◌, ◌≡◌, ◌==◌, eqb, filter, length, take};
ghost use Rattle.answer_numbers.specs.Numbers.{Number, plain, signed, flag, list_numbers, dump_digest};
ghost use Rattle.answer_numbers.specs.Writers.{written, placed};
ghost use Rattle.lists.specs.Lists.{keep};

use crate::sink::{Sink, SinkKind};
use crate::writer::Writer;

// A value with its numbers in the format.
pub trait Numbered {
    ghost numbers: { Self → List Number };

    fn write(&self, to: &mut Writer<'_>)
        ensures { to.new ≡ written (numbers self.now) to.old };
}

impl Numbered for u64 {
    ghost numbers = { λ n. plain n ∷ [] };

    fn write(&self, to: &mut Writer<'_>) {
        to.plain(*self);
    }
}

impl Numbered for u32 {
    ghost numbers = { λ n. plain n ∷ [] };

    fn write(&self, to: &mut Writer<'_>) {
        to.plain(*self as u64);
    }
}

impl Numbered for usize {
    ghost numbers = { λ n. plain n ∷ [] };

    fn write(&self, to: &mut Writer<'_>) {
        to.plain(*self as u64);
    }
}

impl Numbered for i32 {
    ghost numbers = { λ n. signed n ∷ [] };

    fn write(&self, to: &mut Writer<'_>) {
        to.signed(*self);
    }
}

// A flag is 0 or 1.
impl Numbered for bool {
    ghost numbers = { λ f. flag f ∷ [] };

    fn write(&self, to: &mut Writer<'_>) {
        to.plain(*self as u64);
    }
}

// The first `len` items: all, where the count is past their end.
pub fn front<T, const N: usize>(items: &[T; N], len: usize) -> &[T]
    ensures { result.now ≡ take len items.now }
{
    if len < N { &items[..len] } else { items }
}

// A list: how many entries, and each.
pub fn write_list<E: Numbered>(entries: &[E], to: &mut Writer<'_>)
    ensures { to.new ≡ written (list_numbers E.numbers entries.now) to.old }
{
    entries.len().write(to);
    for e in entries {
        e.write(to);
    }
}

// An entry of a list that holds several groups.
pub trait Grouped: Numbered {
    ghost group: { Self → ℕ };

    fn group(&self) -> usize
        ensures { result ≡ group self.now };
}

fn group_count<E: Grouped>(entries: &[E], group: usize) -> usize
    ensures { result ≡ length (filter (λ e. E.group e == group) entries.now) }
{
    entries.iter().filter(|e| e.group() == group).count()
}

// The entries of a group: how many, and each.
pub fn write_group<E: Grouped>(entries: &[E], group: usize, to: &mut Writer<'_>)
    ensures { to.new ≡ written (list_numbers E.numbers (keep (λ e. eqb (E.group e) group) entries.now)) to.old }
{
    group_count(entries, group).write(to);
    for e in entries {
        if e.group() == group {
            e.write(to);
        }
    }
}

// Puts the numbers of a value at a place, and answers the place after them.
#[tactic(auto, using(crate::proofs::WriteLaws::same_buffer, crate::proofs::WriteLaws::buffer_of, crate::proofs::WriteLaws::place_of,))]
pub fn put_numbers<E: Numbered>(out: &mut [u8], at: usize, kind: SinkKind, value: &E) -> usize
    ensures { ◌≡◌ {A = List ℕ × ℕ} (out.new, result)
        (placed kind (E.numbers value.now) (out.old, at)) }
{
    let mut to = Writer {
        out,
        sink: Sink::new(kind, at),
    };
    value.write(&mut to);
    to.sink.at
}

// The digest of a value's dump.
pub fn digest_of<E: Numbered>(value: &E) -> u64
    ensures { result ≡ dump_digest (E.numbers value.now) }
{
    let mut to = Writer {
        out: &mut [],
        sink: Sink::new(SinkKind::Digest, 0),
    };
    value.write(&mut to);
    to.sink.digest.value()
}
