// A line of a script as a call: its verb and its numbers.
ghost use Rattle.std.specs.Prelude.{◌≡◌, []};
ghost use Rattle.script.specs.Examples.{LineExamples};
ghost use Rattle.script.specs.Lines.{line_of, is_skipped};

use crate::fault::LineFault;
use crate::number::{Number, read_number};
use crate::verb::{Verb, verb_named};
use lists::table::Table;

// The numbers of a line.
pub type Fields = Table<Number, 256>;

#[derive(Clone, Copy)]
pub struct Line {
    pub verb: Verb,
    pub fields: Fields,
}

// The call that a line writes, without its line feed, or the first thing that is wrong with it.
pub fn parse(line: &[u8]) -> Result<Line, LineFault>
    ensures { result ≡ line_of line.now }
{
    if line.len() > 4096 {
        return Err(LineFault::LongLine);
    }
    let mut words = line.split(|b| *b == b' ');
    let verb = verb_named(words.next().unwrap_or(&[])).ok_or(LineFault::UnknownVerb)?;
    let mut fields = Fields::new();
    for word in words {
        let number = read_number(word).ok_or(LineFault::MalformedNumber)?;
        if fields.len >= 256 {
            return Err(LineFault::MalformedNumber);
        }
        fields.push_in_place(number);
    }
    Ok(Line { verb, fields })
}

// Whether a line is passed over with no answer: it is empty, or a comment.
pub fn is_skipped(line: &[u8]) -> bool
    ensures { result ≡ is_skipped line.now }
{
    matches!(line, [] | [b'#', ..])
}

// Worked examples of lines.
pub fn line_examples()
    ensures { LineExamples }
{}
