// The calls that alter nothing.

#![tactic(auto, unfolding(call_numbers::specs::Reads::read_numbers))]

ghost use Rattle.std.specs.Prelude.{◌≡◌, [], ◌∷◌, ◌++◌};
ghost use Rattle.lists.specs.Lists.{pad};
ghost use Rattle.call_numbers.specs.Geometries.{transform_numbers, point_numbers};
ghost use Rattle.call_numbers.specs.Reads.{read_numbers};
ghost use Rattle.call_numbers.specs.Words.{handle_numbers};

use crate::geometries::transform_numbers;
use crate::shared::{bare_form, handle_form, put};
use call_fields::numbered::Numbered;
use calls::arguments::{HitTestArguments, InversePointArguments};
use calls::call::ReadCall;

fn hit_test_form(given: HitTestArguments) -> [u64; 32]
    ensures { result ≡ pad 32 0
        (35 ∷ handle_numbers given.view ++ point_numbers given.point ++ given.length ∷ []) }
{
    put(
        handle_form(35, given.view),
        3,
        &[
            given.point.x_milli.number(),
            given.point.y_milli.number(),
            given.length,
        ],
    )
}

fn inverse_form(given: InversePointArguments) -> [u64; 32]
    ensures { result ≡ pad 32 0 (36 ∷ transform_numbers given.transform ++ point_numbers given.point) }
{
    let words = put(bare_form(36), 1, &transform_numbers(given.transform));
    put(
        words,
        7,
        &[given.point.x_milli.number(), given.point.y_milli.number()],
    )
}

pub fn read_form(call: ReadCall) -> [u64; 32]
    ensures { result ≡ pad 32 0 (read_numbers call) }
{
    match call {
        ReadCall::ViewWindow(h) => handle_form(26, h),
        ReadCall::ViewMetrics(h) => handle_form(27, h),
        ReadCall::ViewInputState(h) => handle_form(28, h),
        ReadCall::ViewPointerCaptures(h) => handle_form(29, h),
        ReadCall::SurfaceDescriptor(h) => handle_form(30, h),
        ReadCall::ViewLayers(h) => handle_form(31, h),
        ReadCall::Traces => bare_form(32),
        ReadCall::Counts => bare_form(33),
        ReadCall::ActiveBindingCount => bare_form(34),
        ReadCall::HitTestStack(a) => hit_test_form(a),
        ReadCall::InversePoint(a) => inverse_form(a),
    }
}
