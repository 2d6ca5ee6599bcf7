// A whole answer as words.
ghost use Rattle.std.specs.Prelude.{ℕ, List, ◌≡◌};
ghost use Rattle.answer_numbers.specs.Writers.{written};
ghost use Rattle.answer_words.specs.Answers.{arbitration_numbers, answer_numbers, answer_placed};

use crate::listed::write_releases;
use answer_columns::named::named_handle;
use answer_more::more::put_more;
use answer_numbers::numbered::{Numbered, put_numbers};
use answer_numbers::sink::SinkKind;
use answer_numbers::writer::Writer;
use calls::call::Call;
use composition_arbitration::arbitrate::ArbitrationResult;
use counter::answer::Answer;
use counter::step::Counter;
use handles::GenerationalHandle;
use records::error::number;

fn write_arbitration(arbitration: &ArbitrationResult, to: &mut Writer<'_>)
    ensures { to.new ≡ written (arbitration_numbers arbitration.now) to.old }
{
    arbitration.consumed_by.write(to);
    arbitration.deliveries.write(to);
}

// An answer with the revision after its call and the handle that it names.
#[derive(Clone, Copy)]
struct Answered<'a> {
    revision: u64,
    answer: &'a Answer,
    named: Option<GenerationalHandle>,
}

// The number, the revision, the arbitration, the releases, the captures and the handle that is named.
impl Numbered for Answered<'_> {
    ghost numbers = { λ a. answer_numbers a.revision a.answer.now a.named };

    fn write(&self, to: &mut Writer<'_>) {
        to.plain(number(self.answer.outcome));
        self.revision.write(to);
        write_arbitration(&self.answer.report.arbitration, to);
        write_releases(&self.answer.report.synthesized_releases, to);
        self.answer.listed.captures.write(to);
        self.named.write(to);
    }
}

// The answer from the front of the buffer on, for the counter after the call; answered is the place behind it.
pub fn put_answer(out: &mut [u8], call: Call, answer: Answer, counter: Counter) -> usize
    ensures { ◌≡◌ {A = List ℕ × ℕ} (out.new, result) (answer_placed call answer counter out.old) }
{
    let answered = Answered {
        revision: counter.registry.revision,
        answer: &answer,
        named: named_handle(
            answer.outcome,
            call,
            answer.handle,
            answer.report.kind,
            answer.shown,
        ),
    };
    let end = put_numbers(out, 0, SinkKind::Words, &answered);
    put_more(out, end, SinkKind::Words, call, answer, counter)
}
