// The session of RULES.md, Desk. Three panels stand in one view: the seat map, the hold bar over it, which only
// observes, and the pay sheet over both, which takes every event. One pointer presses, the pay sheet closes, and the
// pointer's device goes.
// The program reads nothing and writes a line for each of the eight steps.

#![tactic(auto, using(answer_columns::proofs::LineLaws::extended_both, answer_columns::proofs::LineLaws::extended_none, answer_columns::proofs::LineLaws::same_buffer, answer_columns::proofs::LineLaws::buffer_of, answer_columns::proofs::LineLaws::place_of,))]

mod opening;
mod steps;
mod table;

use std::io;

fn main(rt: HostRuntime) -> io::Result<()> {
    let mut text = [0u8; 1024];
    let end = table::put_table(&mut text);
    match text.get(..end) {
        Some(written) => rt.write_all(written),
        None => Ok(()),
    }
}
