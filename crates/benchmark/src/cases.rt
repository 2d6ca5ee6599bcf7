// The cases that are measured.
use crate::events::Gesture;
use crate::opening::{open, with_captures, with_presses};
use crate::tally::Tally;
use crate::turns::{close_turns, disconnect_turns, hit_turns, route_turns};

#[derive(Clone, Copy)]
pub enum Case {
    Move3,
    Move16,
    Press3,
    Press16,
    Hit16,
    DisconnectPresses,
    DisconnectCaptures,
    Panel,
}

pub fn named(word: &[u8]) -> Option<Case> {
    match word {
        b"move_3" => Some(Case::Move3),
        b"move_16" => Some(Case::Move16),
        b"press_3" => Some(Case::Press3),
        b"press_16" => Some(Case::Press16),
        b"hit_16" => Some(Case::Hit16),
        b"disconnect_presses" => Some(Case::DisconnectPresses),
        b"disconnect_captures" => Some(Case::DisconnectCaptures),
        b"panel" => Some(Case::Panel),
        _ => None,
    }
}

fn panels_of(case: Case) -> u64 {
    match case {
        Case::Move16 | Case::Press16 | Case::Hit16 => 16,
        Case::Move3 | Case::Press3 | Case::DisconnectPresses | Case::Panel => 3,
        Case::DisconnectCaptures => 1,
    }
}

// The turns of a case, on a counter that is opened for it.
pub fn run(case: Case, turns: u64) -> Tally {
    let opened = open(panels_of(case));
    match case {
        Case::Move3 | Case::Move16 => route_turns(opened, Gesture::Moves, turns),
        Case::Press3 | Case::Press16 => route_turns(opened, Gesture::Presses, turns),
        Case::Hit16 => hit_turns(opened, turns),
        Case::DisconnectPresses => disconnect_turns(with_presses(opened), turns),
        Case::DisconnectCaptures => disconnect_turns(with_captures(opened), turns),
        Case::Panel => close_turns(opened, turns),
    }
}
