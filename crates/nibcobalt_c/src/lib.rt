// The functions that C and other languages call: those of `nibcobalt::entries`, exported under their names.

#![tactic(auto)]

ghost use Rattle.std.specs.Prelude.{◌≡◌};
ghost use Rattle.nibcobalt.specs.Fresh.{started_memory};
ghost use Rattle.nibcobalt.specs.Calls.{called};
ghost use Rattle.nibcobalt.specs.Routes.{route_called};

use counter_memory::memory::CounterMemory;
use host_message::message::Message;
use nibcobalt::direct_route::RouteMessage;
use nibcobalt::entries;
use nibcobalt::fresh::Start;
use nibcobalt::status::Status;

// A fresh counter. A refusal's number is one of REFUSALS.md, and leaves the memory as it was.
#[unsafe(no_mangle)]
pub extern "C" fn nibcobalt_start_counter(counter: &mut CounterMemory, start: &mut Start) -> Status
    ensures { (counter.new ≡ (started_memory counter.old start.old).memory)
        × (start.new ≡ (started_memory counter.old start.old).start)
        × (result ≡ (started_memory counter.old start.old).status) }
{
    entries::nibcobalt_start_counter(counter, start)
}

// Any call, answered in a lent buffer.
#[unsafe(no_mangle)]
pub extern "C" fn nibcobalt_call(
    counter: &mut CounterMemory,
    message: &mut Message,
    answer: &mut [u8],
) -> Status
    ensures { (counter.new
        ≡ (called counter.old message.old answer.old).1.memory)
        × (message.new ≡ (called counter.old message.old answer.old).1.message)
        × (answer.new ≡ (called counter.old message.old answer.old).0)
        × (result ≡ (called counter.old message.old answer.old).1.status) }
{
    entries::nibcobalt_call(counter, message, answer)
}

// `route` alone.
#[unsafe(no_mangle)]
pub extern "C" fn nibcobalt_route(
    counter: &mut CounterMemory,
    message: &mut RouteMessage,
    answer: &mut [u8],
) -> Status
    ensures { (counter.new
        ≡ (route_called counter.old message.old answer.old).1.memory)
        × (message.new ≡ (route_called counter.old message.old
        answer.old).1.message)
        × (answer.new ≡ (route_called counter.old message.old answer.old).0)
        × (result ≡ (route_called counter.old message.old answer.old).1.status) }
{
    entries::nibcobalt_route(counter, message, answer)
}
