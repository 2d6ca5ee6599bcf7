// The library's functions on lent memory, which the crate `nibcobalt_c` exports. Each is a function of the modules
// beside this one with its states lent; what stands behind the references at exit, and the answer, are that function's.
ghost use Rattle.std.specs.Prelude.{◌≡◌};
ghost use Rattle.nibcobalt.specs.Fresh.{started_memory};
ghost use Rattle.nibcobalt.specs.Calls.{called};
ghost use Rattle.nibcobalt.specs.Routes.{route_called};

use crate::any_call::call;
use crate::direct_route::{RouteMessage, route};
use crate::fresh::{Start, start_counter};
use crate::status::Status;
use counter_memory::memory::CounterMemory;
use host_message::message::Message;

// A fresh counter. A refusal's number is one of REFUSALS.md, and leaves the memory as it was.
pub fn nibcobalt_start_counter(counter: &mut CounterMemory, start: &mut Start) -> Status
    ensures { (counter.new ≡ (started_memory counter.old start.old).memory)
        × (start.new ≡ (started_memory counter.old start.old).start)
        × (result ≡ (started_memory counter.old start.old).status) }
{
    let done = start_counter(*counter, *start);
    *counter = done.memory;
    *start = done.start;
    done.status
}

// Any call, answered in a lent buffer.
pub fn nibcobalt_call(
    counter: &mut CounterMemory,
    message: &mut Message,
    answer: &mut [u8],
) -> Status
    ensures { (counter.new
        ≡ (called counter.old message.old answer.old).1.memory)
        × (message.new ≡ (called counter.old message.old answer.old).1.message)
        × (answer.new ≡ (called counter.old message.old answer.old).0)
        × (result ≡ (called counter.old message.old answer.old).1.status) }
{
    let done = call(*counter, *message, answer);
    *counter = done.memory;
    *message = done.message;
    done.status
}

// `route` alone.
pub fn nibcobalt_route(
    counter: &mut CounterMemory,
    message: &mut RouteMessage,
    answer: &mut [u8],
) -> Status
    ensures { (counter.new
        ≡ (route_called counter.old message.old answer.old).1.memory)
        × (message.new ≡ (route_called counter.old message.old
        answer.old).1.message)
        × (answer.new ≡ (route_called counter.old message.old answer.old).0)
        × (result ≡ (route_called counter.old message.old answer.old).1.status) }
{
    let done = route(*counter, *message, answer);
    *counter = done.memory;
    *message = done.message;
    done.status
}
