// The router's own state: its start, its damage test, the order of events, the open presses and their releases.

#![tactic(auto)]

pub mod damage;
pub mod order;
pub mod presses;
pub mod releases;
pub mod router;
pub mod view_releases;

ghost use Rattle.input_router.specs.Claims.{RouterClaims};

// The claims about the router, as a theorem that the check names.
pub fn router_claims()
    ensures { RouterClaims }
{}
