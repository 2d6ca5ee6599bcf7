// What a routed event answers, and what a device's disconnect and a view's loss release.

#![tactic(auto)]

pub mod answer;
pub mod losses;
