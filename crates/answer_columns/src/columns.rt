// Columns 1 to 6 of an answer line.
ghost use Rattle.std.specs.Prelude.{◌≡◌};
ghost use Rattle.answer_columns.specs.Columns.{number_pieces, arbitration_pieces, releases_column, column_pieces};
ghost use Rattle.answer_columns.specs.Lines.{extended};

use crate::line::Line;
use crate::pieces::{Pieces, put_list};
use composition_arbitration::arbitrate::ArbitrationResult;
use counter::answer::Answer;
use records::error::number;
use release_lists::captures::CaptureList;
use release_lists::releases::Releases;

// Columns 1 to 3, each with the space behind it.
pub fn put_numbers(calls: u64, number: u64, revision: u64, line: &mut Line<'_>)
    ensures { line.new ≡ extended (number_pieces calls number revision) line.old }
{
    line.cell(calls);
    line.cell(number);
    line.cell(revision);
}

// Columns 4 and 5.
fn put_arbitration(arbitration: &ArbitrationResult, line: &mut Line<'_>)
    ensures { line.new ≡ extended (arbitration_pieces arbitration.now) line.old }
{
    arbitration.consumed_by.put(line);
    line.space();
    put_list(arbitration.deliveries.entries(), line);
}

// The captures that a call lists, or else the releases of its report.
#[tactic(auto, unfolding(crate::specs::Columns::releases_column))]
pub fn put_releases(listed: &Releases, captures: &CaptureList, line: &mut Line<'_>)
    ensures { line.new ≡ extended (releases_column listed.now captures.now) line.old }
{
    let held = captures.entries();
    if held.len() == 0 {
        put_list(listed.entries(), line);
    } else {
        put_list(held, line);
    }
}

// The number of the call, the answer, the revision after the call, the consumer, the deliveries and the releases.
#[tactic(auto, using(crate::proofs::LineLaws::extended_both), unfolding(crate::specs::Columns::column_pieces))]
pub fn put_columns(calls: u64, revision: u64, answer: &Answer, line: &mut Line<'_>)
    ensures { line.new ≡ extended (column_pieces calls revision answer.now) line.old }
{
    put_numbers(calls, number(answer.outcome), revision, line);
    put_arbitration(&answer.report.arbitration, line);
    line.space();
    put_releases(
        &answer.report.synthesized_releases,
        &answer.listed.captures,
        line,
    );
}
