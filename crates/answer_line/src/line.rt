// The line of an answered call, and the end of every line.
ghost use Rattle.std.specs.Prelude.{ℕ, List, ◌≡◌};
ghost use Rattle.answer_columns.specs.Lines.{extended};
ghost use Rattle.answer_columns.specs.Pieces.{put_all};
ghost use Rattle.answer_line.specs.Line.{answer_taken, digest_pieces, end_pieces};

use answer_columns::columns::put_columns;
use answer_columns::line::Line;
use answer_columns::named::{named_handle, put_named};
use answer_more::more::put_more;
use answer_numbers::sink::SinkKind;
use calls::call::Call;
use counter::answer::Answer;
use counter::step::Counter;
use registry_dump::registry::registry_digest;
use router_dump::router::router_digest;

// Columns 1 to 8, for the counter after the call.
pub fn put_answer(out: &mut [u8], calls: u64, call: Call, answer: Answer, counter: Counter) -> usize
    ensures { ◌≡◌ {A = List ℕ × ℕ} (out.new, result)
        (answer_taken calls call answer counter out.old) }
{
    let handle = named_handle(
        answer.outcome,
        call,
        answer.handle,
        answer.report.kind,
        answer.shown,
    );
    let mut line = Line { out, at: 0 };
    put_columns(calls, counter.registry.revision, &answer, &mut line);
    put_named(handle, &mut line);
    let at = line.at;
    put_more(line.out, at, SinkKind::Column, call, answer, counter)
}

// A digest in decimal, behind a space.
fn put_digest(digest: u64, line: &mut Line<'_>)
    ensures { line.new ≡ extended (digest_pieces digest) line.old }
{
    line.space();
    line.number(digest);
}

// Columns 9 and 10 where they are shown, and the line feed.
fn end_line(counter: Counter, are_shown: bool, line: &mut Line<'_>)
    ensures { line.new ≡ extended (end_pieces counter are_shown) line.old }
{
    if are_shown {
        put_digest(registry_digest(counter.registry), line);
        put_digest(router_digest(counter.router), line);
    }
    line.byte(b'\n');
}

pub fn put_end(out: &mut [u8], at: usize, counter: Counter, are_shown: bool) -> usize
    ensures { ◌≡◌ {A = List ℕ × ℕ} (out.new, result)
        (put_all (end_pieces counter are_shown) (out.old, at)) }
{
    let mut line = Line { out, at };
    end_line(counter, are_shown, &mut line);
    line.at
}
