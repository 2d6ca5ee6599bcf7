// The dump of a whole router, and its digest.
ghost use Rattle.std.specs.Prelude.{◌≡◌};
ghost use Rattle.answer_numbers.specs.Numbers.{dump_digest};
ghost use Rattle.router_dump.specs.Claims.{RouterClaims};
ghost use Rattle.router_dump.specs.Router.{router_numbers};

use answer_numbers::numbered::{Numbered, digest_of};
use answer_numbers::presses::write_presses;
use answer_numbers::writer::Writer;
use input_router::router::PlatformInputRouter;

// A router whose numbers are all written.
#[derive(Clone, Copy)]
pub struct RouterDump<'a>(pub &'a PlatformInputRouter);

// The known devices, by rising key, stand before the presses: the pointers 0, the keys 1, the gamepads 2.
impl Numbered for RouterDump<'_> {
    ghost numbers = { λ d. router_numbers d.0.now };

    fn write(&self, to: &mut Writer<'_>) {
        let router = self.0;
        router.max_active_bindings.write(to);
        router.last_timestamp_micros.write(to);
        router.device_sequences.write(to);
        write_presses(&router.bindings, 0, to);
        write_presses(&router.bindings, 1, to);
        write_presses(&router.bindings, 2, to);
    }
}

// The digest of a router's dump.
pub fn router_digest(router: PlatformInputRouter) -> u64
    ensures { result ≡ dump_digest (router_numbers router) }
{
    digest_of(&RouterDump(&router))
}

// The worked example of the format.
pub fn router_claims()
    ensures { RouterClaims }
{}
