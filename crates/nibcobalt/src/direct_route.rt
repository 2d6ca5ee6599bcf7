// An event, given as the numbers of its `route`: routed without the dispatch and the lists of the other calls.
ghost use Rattle.std.specs.Prelude.{ℕ, List, ◌≡◌};
ghost use Rattle.nibcobalt.specs.Routes.{is_route_form, route_made, route_called};

use crate::status::{Status, refusal_of};
use answer_words::answered::put_answer;
use call_forms::call::is_form;
use call_numbers::events::router_at;
use calls::call::Call;
use counter::step::{Counter, router_step};
use counter_memory::memory::CounterMemory;

#[repr(C)]
#[derive(Clone, Copy)]
pub struct RouteMessage {
    pub call: [u64; 32],
}

#[derive(Clone, Copy)]
pub struct RouteCalled {
    pub status: Status,
    pub memory: CounterMemory,
    pub message: RouteMessage,
}

fn is_route_form(words: [u64; 32]) -> bool
    ensures { result ≡ is_route_form words }
{
    words[0] == 23 && is_form(words)
}

// The event is routed, and the answer written.
#[tactic(auto, unfolding(crate::specs::Routes::route_made))]
fn make_route(memory: CounterMemory, message: RouteMessage, answer: &mut [u8]) -> RouteCalled
    ensures { ◌≡◌ {A = List ℕ × RouteCalled} (answer.new, result)
        (route_made memory message answer.old) }
{
    let call = router_at(message.call);
    let done = router_step(Counter::from(memory), call);
    let length = put_answer(answer, Call::Router(call), done.answer, done.counter);
    RouteCalled {
        status: Status { number: 0, length },
        memory: CounterMemory::from(done.counter),
        message,
    }
}

// A message that is malformed or no `route` is answered 1000, a buffer that is too short 1001, and nothing is altered.
#[tactic(auto, unfolding(crate::specs::Routes::route_called))]
pub fn route(memory: CounterMemory, message: RouteMessage, answer: &mut [u8]) -> RouteCalled
    ensures { ◌≡◌ {A = List ℕ × RouteCalled} (answer.new, result)
        (route_called memory message answer.old) }
{
    let refusal = refusal_of(is_route_form(message.call), answer.len());
    if refusal == 0 {
        return make_route(memory, message, answer);
    }
    RouteCalled {
        status: Status::without_answer(refusal),
        memory,
        message,
    }
}
