// The registry and the router as numbers in three lent slices: how they are read (specs/), and readers of one panel's
// and one view's record.

#![tactic(auto)]

pub mod layout;
pub mod panels;
pub mod views;
