// How long an answer line of `replay` is at most, so that a buffer of 524,288 bytes holds every line whole.

#![tactic(auto)]

ghost use Rattle.line_lengths.specs.Claims.{LineLengthClaims};
ghost use Rattle.line_lengths.specs.Lengths.{StateLengths};

use answer_words::read::lengths_held;
use counter::step::Counter;

// Every line is one text, and none is longer than the buffer: a theorem that the check names.
pub fn line_length_claims()
    ensures { LineLengthClaims }
{}

// A counter that a program holds is one that these claims are about: its arrays have the length of their types.
pub fn state_lengths_held(counter: Counter)
    ensures { StateLengths counter }
{
    lengths_held(counter);
}
