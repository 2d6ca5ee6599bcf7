// The table: the line that names the columns, and a line for each step.
ghost use Rattle.std.specs.Prelude.{◌≡◌, List, ℕ};
ghost use Rattle.answer_columns.specs.Lines.{held, holding, extended};
ghost use Rattle.desk.specs.Table.{line_pieces, lines_after, table_after};

use crate::opening::{Opened, no_lists, open_desk};
use crate::steps::call_of;
use answer_columns::columns::put_columns;
use answer_columns::line::Line;
use counter::step::{Stepped, step};

// The line of a step that is taken.
fn put_line(number: u64, done: &Stepped, line: &mut Line<'_>)
    ensures { line.new ≡ extended (line_pieces number done.now) line.old }
{
    put_columns(number, done.counter.registry.revision, &done.answer, line);
    line.byte(b'\n');
}

// Takes the eight steps and puts the line of each.
fn put_steps(opened: Opened, line: &mut Line<'_>)
    ensures { line.new ≡ holding line.old (lines_after opened (held line.old)) }
{
    let mut counter = opened.counter;
    for i in 0..8 {
        let number = i + 1;
        let done = step(counter, call_of(opened.places, number), no_lists());
        put_line(number, &done, line);
        counter = done.counter;
    }
}

pub fn put_table(out: &mut [u8]) -> usize
    ensures { ◌≡◌ {A = List ℕ × ℕ} (out.new, result) (table_after out.old) }
{
    let mut line = Line { out, at: 0 };
    line.bytes(b"step answer revision consumer deliveries releases\n");
    put_steps(open_desk(), &mut line);
    line.at
}
