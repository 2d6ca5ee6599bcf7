// From numbers to the fields of a call, and back. A number out of its field's range is read as 0 or the first choice:
// whoever reads a call compares what it was read from with what it is written as.

#![tactic(auto)]

pub mod event_choices;
pub mod groups;
pub mod numbered;
pub mod panel_choices;
