// `step` on a lent counter.
ghost use Rattle.in_place.specs.EntryContracts.{StepInPlace};

use calls::call::{Call, Lists};
use counter::answer::Answer;
use counter::step::Counter;

// Any call on a lent counter.
pub fn step(counter: &mut Counter, call: Call, lists: Lists) -> Answer
    ensures { StepInPlace counter.old call lists counter.new result }
{
    let done = counter::step::step(*counter, call, lists);
    *counter = done.counter;
    done.answer
}
