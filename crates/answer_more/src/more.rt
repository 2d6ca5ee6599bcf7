// What an answer shows: column 8, or the words behind a host's answer.
//
// A buffer, a place and a kind go in and no writer: what is shown begins a text of its own, or words, at that place.
ghost use Rattle.std.specs.Prelude.{ℕ, List, ◌≡◌};
ghost use Rattle.answer_more.specs.More.{loss_numbers, event_more, router_more, more_of};
ghost use Rattle.answer_more.specs.Place.{more_placed};

use crate::closing::put_closing;
use crate::none::put_none;
use crate::shown::put_shown;
use answer_numbers::numbered::{Numbered, put_numbers};
use answer_numbers::sink::SinkKind;
use answer_numbers::writer::Writer;
use calls::call::{Call, RouterCall};
use counter::answer::Answer;
use counter::step::Counter;
use input_releases::answer::RouteKind;
use records::view::ViewInputState;

// What a view's loss let go.
#[derive(Clone, Copy)]
struct Loss<'a>(&'a Option<ViewInputState>);

impl Numbered for Loss<'_> {
    ghost numbers = { λ l. loss_numbers l.0.now };

    fn write(&self, to: &mut Writer<'_>) {
        to.plain(2);
        match self.0 {
            None => {}
            Some(state) => state.write(to),
        }
    }
}

// What became of a routed event.
fn put_event(
    out: &mut [u8],
    at: usize,
    kind: SinkKind,
    route: RouteKind,
    state: Option<ViewInputState>,
) -> usize
    ensures { ◌≡◌ {A = List ℕ × ℕ} (out.new, result)
        (more_placed kind (event_more route state) (out.old, at)) }
{
    match route {
        RouteKind::Nothing => put_none(out, at, kind),
        RouteKind::Disconnected => put_numbers(out, at, kind, &0u64),
        RouteKind::Arbitrated => put_numbers(out, at, kind, &1u64),
        RouteKind::ViewReleased => put_numbers(out, at, kind, &Loss(&state)),
    }
}

fn put_routed(
    out: &mut [u8],
    at: usize,
    kind: SinkKind,
    call: RouterCall,
    route: RouteKind,
    state: Option<ViewInputState>,
) -> usize
    ensures { ◌≡◌ {A = List ℕ × ℕ} (out.new, result)
        (more_placed kind (router_more call route state) (out.old, at)) }
{
    match call {
        RouterCall::Route(_) => put_event(out, at, kind, route, state),
        RouterCall::ReleaseSurface(_) | RouterCall::ReleaseAll => put_none(out, at, kind),
    }
}

// A refused call shows nothing.
pub fn put_more(
    out: &mut [u8],
    at: usize,
    kind: SinkKind,
    call: Call,
    answer: Answer,
    counter: Counter,
) -> usize
    ensures { ◌≡◌ {A = List ℕ × ℕ} (out.new, result)
        (more_placed kind (more_of call answer counter) (out.old, at)) }
{
    if !answer.outcome.is_ok() {
        return put_none(out, at, kind);
    }
    match call {
        Call::Close(which) => put_closing(
            out,
            at,
            kind,
            which,
            &answer.listed.closed,
            &answer.listed.shutdown,
        ),
        Call::Router(which) => {
            let report = answer.report;
            put_routed(out, at, kind, which, report.kind, report.view_release)
        }
        _ => put_shown(out, at, kind, answer.shown, counter.registry),
    }
}
