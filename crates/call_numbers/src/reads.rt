// The calls that alter nothing: numbers 26 to 36.

#![tactic(auto, unfolding(crate::specs::Reads::read_at))]

ghost use Rattle.std.specs.Prelude.{◌≡◌};
ghost use Rattle.call_numbers.specs.Reads.{read_at};

use crate::geometries::{point_at, transform_at};
use crate::words::handle_at;
use calls::arguments::{HitTestArguments, InversePointArguments};
use calls::call::ReadCall;

// The call of a number from 26 to 36; any other is read as the last.
pub fn read_at(words: [u64; 32]) -> ReadCall
    ensures { result ≡ read_at words }
{
    let handle = handle_at(words, 1);
    match words[0] {
        26 => ReadCall::ViewWindow(handle),
        27 => ReadCall::ViewMetrics(handle),
        28 => ReadCall::ViewInputState(handle),
        29 => ReadCall::ViewPointerCaptures(handle),
        30 => ReadCall::SurfaceDescriptor(handle),
        31 => ReadCall::ViewLayers(handle),
        32 => ReadCall::Traces,
        33 => ReadCall::Counts,
        34 => ReadCall::ActiveBindingCount,
        35 => ReadCall::HitTestStack(HitTestArguments {
            view: handle,
            point: point_at(words, 3),
            length: words[5],
        }),
        _ => ReadCall::InversePoint(InversePointArguments {
            transform: transform_at(words, 1),
            point: point_at(words, 7),
        }),
    }
}
