// The loops that are measured. Each turn hands the states in by value and takes the answered ones on.
use crate::events::{Gesture, disconnect, phase_of, pointer};
use crate::opening::{Opened, issued, panel};
use crate::tally::{Tally, add_routed, tally_of};
use composition_close::close::close_surface;
use composition_hits::stack::hit_test_stack;
use composition_panels::panels::attach_surface;
use geometry::transform::Point;
use input_route::route::route;
use records::surface::SurfaceInputPolicy;

// One contact's events, one a turn.
pub fn route_turns(opened: Opened, gesture: Gesture, turns: u64) -> Tally {
    let Opened {
        places,
        mut registry,
        mut router,
    } = opened;
    let mut sum: u64 = 0;
    for turn in 0..turns {
        let sequence = turn + 1;
        let event = pointer(places, sequence, 0, phase_of(gesture, sequence));
        let routed = route(registry, router, event);
        sum = add_routed(sum, routed.report());
        registry = routed.registry;
        router = routed.router;
    }
    tally_of(registry, router, sum)
}

// A disconnect a turn, each on the same presses and captures; only the revision and the event's number are others.
pub fn disconnect_turns(opened: Opened, turns: u64) -> Tally {
    let Opened {
        places,
        mut registry,
        router,
    } = opened;
    let mut sum: u64 = 0;
    for turn in 0..turns {
        registry.revision = turn;
        let event = disconnect(places, turn.wrapping_add(129));
        sum = add_routed(sum, route(registry, router, event).report());
    }
    tally_of(registry, router, sum)
}

// A hit test a turn. The revision is another each time, so that no turn can take over what an earlier one found.
pub fn hit_turns(opened: Opened, turns: u64) -> Tally {
    let Opened {
        places,
        mut registry,
        router,
    } = opened;
    let point = Point {
        x_milli: 0,
        y_milli: 0,
    };
    let mut sum: u64 = 0;
    for turn in 0..turns {
        registry.revision = turn;
        let mut buffer = [0u64; 32];
        if let Ok(hits) = hit_test_stack(registry, places.view, point, &mut buffer) {
            sum = sum.wrapping_add(hits.len() as u64);
        }
    }
    tally_of(registry, router, sum)
}

// A panel attached and closed, both in one turn.
pub fn close_turns(opened: Opened, turns: u64) -> Tally {
    let Opened {
        places,
        mut registry,
        router,
    } = opened;
    let mut sum: u64 = 0;
    for _ in 0..turns {
        let attached = attach_surface(
            registry,
            panel(places.view, SurfaceInputPolicy::Interactive),
        );
        let closed = close_surface(attached.registry, issued(attached));
        sum = sum.wrapping_add(closed.outcome.map_or(0, |report| report.revision));
        registry = closed.registry;
    }
    tally_of(registry, router, sum)
}
