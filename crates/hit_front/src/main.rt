// The front part that a hit test answers, and the buffer behind it. Two panels fill one view, and each buffer holds
// sevens. The program reads nothing. It writes three lines for a test that is accepted, and three for one that is
// refused: the refusal's number, the front part, and the whole buffer after the test.

#![tactic(auto)]

mod opening;

use crate::opening::{first, open};
use answer_text::put::{put_byte, put_u64};
use composition_hits::stack::hit_test_stack;
use composition_state::registry::CompositionRegistry;
use geometry::transform::Point;
use records::error::Refusal;
use std::io;

// The numbers on a line of their own.
fn put_numbers(out: &mut [u8], at: usize, numbers: &[u64]) -> usize {
    let mut next = at;
    for n in numbers {
        next = put_u64(out, next, *n);
        next = put_byte(out, next, b' ');
    }
    put_byte(out, next, b'\n')
}

// The refusal's number on a line of its own, and then the front part.
fn put_answer(out: &mut [u8], at: usize, refusal: u64, front: &[u64]) -> usize {
    let named = put_u64(out, at, refusal);
    let line = put_byte(out, named, b'\n');
    put_numbers(out, line, front)
}

// A hit test in the first view, at the point 0, 0.
fn put_test(out: &mut [u8], at: usize, registry: CompositionRegistry, buffer: &mut [u64]) -> usize {
    let point = Point {
        x_milli: 0,
        y_milli: 0,
    };
    let listed = match hit_test_stack(registry, first(), point, buffer) {
        Ok(front) => put_answer(out, at, 0, front),
        Err(error) => put_answer(out, at, error.number(), &[]),
    };
    put_numbers(out, listed, buffer)
}

fn main(rt: HostRuntime) -> io::Result<()> {
    let registry = open();
    let mut text = [0u8; 512];
    let mut long = [7u64; 34];
    let half = put_test(&mut text, 0, registry, &mut long);
    let mut short = [7u64; 31];
    let end = put_test(&mut text, half, registry, &mut short);
    match text.get(..end) {
        Some(written) => rt.write_all(written),
        None => Ok(()),
    }
}
