// The checks of an event before anything is written.
ghost use Rattle.std.specs.Prelude.{◌≡◌};
ghost use Rattle.input_route.specs.Checks.{room_refusal, order_refusal, refusal_with};

use input_events::checks::event_refusal;
use input_events::error::{PlatformInputError, RouterOutcome};
use input_events::event::{PlatformInputEvent, PlatformInputHeader};
use input_events::presses::{Effect, effect_of};
use input_router::router::PlatformInputRouter;
use records::error::refuse_if;
use records::view::ViewTable;

// A press that would open needs room, whether it will have a receiver or not.
fn room_refusal(router: PlatformInputRouter, event: PlatformInputEvent) -> RouterOutcome
    ensures { result ≡ room_refusal router event }
{
    match effect_of(event) {
        Effect::Opens(key) => refuse_if(!router.has_room(key), PlatformInputError::Capacity),
        Effect::Ends(_) | Effect::Nothing => Ok(()),
    }
}

// What an event is refused for by its order.
fn order_refusal(router: PlatformInputRouter, header: PlatformInputHeader) -> RouterOutcome
    ensures { result ≡ order_refusal router header }
{
    router.order_of(header.device, header.sequence, header.timestamp_micros)
}

// The first refusal of an event, with what the damage test of the registry says.
pub fn route_refusal(
    is_sound: bool,
    views: ViewTable,
    router: PlatformInputRouter,
    event: PlatformInputEvent,
) -> RouterOutcome
    ensures { result ≡ refusal_with is_sound views router event }
{
    refuse_if(!is_sound || !router.is_sound(), PlatformInputError::Damaged)?;
    event_refusal(views, event)?;
    room_refusal(router, event)?;
    order_refusal(router, event.header)
}
