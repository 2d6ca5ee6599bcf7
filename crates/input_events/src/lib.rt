// The events of the platform, and the rules that read an event alone: its checks, the press that it concerns, and what
// it asks the registry.

#![tactic(auto)]

pub mod arbitration_event;
pub mod checks;
pub mod error;
pub mod event;
pub mod presses;

ghost use Rattle.input_events.specs.Claims.{EventClaims};

// What holds of the events' definitions: the counter table's rows, the numbers, an event's own press, and where hits
// are asked for.
pub fn event_claims()
    ensures { EventClaims }
{}
