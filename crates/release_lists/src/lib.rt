// What a loss lists: the captures that it ends, and the releases of presses and captures.

#![tactic(auto)]

pub mod captures;
pub mod releases;
