// Makes one kind of call again and again, so that its time can be measured from outside: `benchmark CASE TURNS`.
// It writes numbers that depend on every call, by which two implementations can be compared.

#![tactic(auto)]

mod cases;
mod events;
mod opening;
mod tally;
mod turns;

use std::env::Env;
use std::io;

fn write_tally(rt: &impl Print, tally: tally::Tally) -> io::Result<()> {
    println!(rt; "{} {} {}", tally.revision, tally.presses, tally.sum)
}

// An argument's bytes, put into a buffer; none where it is missing or does not fit.
fn word_at<'a>(rt: &impl Env, i: usize, word: &'a mut [u8]) -> &'a [u8] {
    match rt.arg(i, word) {
        Ok(n) => &word[..n],
        Err(_) => &[],
    }
}

// A word that is no number asks for no turns.
fn turns_asked(rt: &impl Env) -> u64 {
    let mut word = [0u8; 20];
    match script::number::read_number(word_at(rt, 2, &mut word)) {
        Some(number) => number.magnitude,
        None => 0,
    }
}

fn case_asked(rt: &impl Env) -> Option<cases::Case> {
    let mut word = [0u8; 32];
    cases::named(word_at(rt, 1, &mut word))
}

// A word that names no case makes no call.
fn main(rt: HostRuntime) -> io::Result<()> {
    let tally = match case_asked(&rt) {
        Some(case) => cases::run(case, turns_asked(&rt)),
        None => tally::Tally::NONE,
    };
    write_tally(&rt, tally)
}
