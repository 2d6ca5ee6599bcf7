// What the registry stores: panels and their layers, views, shortcuts and traces, each with what reads and changes it;
// and the refusals.

#![tactic(auto)]

pub mod error;
pub mod layers;
pub mod shortcut;
pub mod slot_table;
pub mod surface;
pub mod trace;
pub mod view;

ghost use Rattle.records.specs.Claims.{RecordClaims};

// What holds of refusals and of panels' records, as a theorem that the check names.
pub fn record_claims()
    ensures { RecordClaims }
{}
