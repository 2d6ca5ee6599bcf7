// Any call, given as a message and answered in a lent buffer.
ghost use Rattle.std.specs.Prelude.{ℕ, List, ◌≡◌};
ghost use Rattle.nibcobalt.specs.Calls.{made, called};

use crate::status::{Status, refusal_of};
use answer_words::answered::put_answer;
use call_numbers::call::call_at;
use calls::call::Lists;
use counter::step::{Counter, step};
use counter_memory::memory::CounterMemory;
use host_message::hits::hits_of;
use host_message::message::{Message, is_message};
use host_message::registrations::registrations_of;

#[derive(Clone, Copy)]
pub struct Called {
    pub status: Status,
    pub memory: CounterMemory,
    pub message: Message,
}

// The call is made, and its answer written.
#[tactic(auto, unfolding(crate::specs::Calls::made))]
fn make(memory: CounterMemory, message: Message, answer: &mut [u8]) -> Called
    ensures { ◌≡◌ {A = List ℕ × Called} (answer.new, result) (made memory message answer.old) }
{
    let call = call_at(message.call);
    let beside = Lists {
        hits: hits_of(message.hits),
        registrations: registrations_of(message.registrations),
    };
    let done = step(Counter::from(memory), call, beside);
    let length = put_answer(answer, call, done.answer, done.counter);
    Called {
        status: Status { number: 0, length },
        memory: CounterMemory::from(done.counter),
        message,
    }
}

// A malformed message is answered 1000, a buffer that is too short 1001, and nothing is altered.
#[tactic(auto, unfolding(crate::specs::Calls::called))]
pub fn call(memory: CounterMemory, message: Message, answer: &mut [u8]) -> Called
    ensures { ◌≡◌ {A = List ℕ × Called} (answer.new, result) (called memory message answer.old) }
{
    let refusal = refusal_of(is_message(message), answer.len());
    if refusal == 0 {
        return make(memory, message, answer);
    }
    Called {
        status: Status::without_answer(refusal),
        memory,
        message,
    }
}
