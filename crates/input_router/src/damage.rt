// Whether a router is one that its calls can have made.
ghost use Rattle.std.specs.Prelude.{◌≡◌};
ghost use Rattle.input_router.specs.Damage.{is_router_sound};

use crate::router::{PlatformInputRouter, start_outcome};

impl PlatformInputRouter {
    // Whether a router passes the damage test; one that does not is refused 42 by every call.
    #[tactic(auto, unfolding(crate::specs::Damage::is_router_sound))]
    pub fn is_sound(self) -> bool
        ensures { result ≡ is_router_sound self }
    {
        start_outcome(self.max_active_bindings).is_ok()
            && self.bindings.table.len <= 128
            && self.device_sequences.table.len <= 32
            && self.bindings.table.len as u64 <= self.max_active_bindings
            && self.bindings.is_rising()
            && self.device_sequences.is_rising()
    }
}
