// The calls on windows, views and panels.

#![tactic(auto, unfolding(call_numbers::specs::Panels::panel_numbers))]

ghost use Rattle.std.specs.Prelude.{◌≡◌, [], ◌∷◌, ◌++◌};
ghost use Rattle.lists.specs.Lists.{pad};
ghost use Rattle.call_fields.specs.PanelChoices.{policy_number};
ghost use Rattle.call_numbers.specs.Geometries.{geometry_numbers, metrics_numbers};
ghost use Rattle.call_numbers.specs.Panels.{descriptor_numbers, panel_numbers};
ghost use Rattle.call_numbers.specs.Words.{handle_numbers};

use crate::geometries::geometry_numbers;
use crate::shared::{bare_form, handle_form, put};
use call_fields::numbered::Numbered;
use calls::arguments::{GeometryArguments, MetricsArguments, PolicyArguments};
use calls::call::PanelCall;
use records::surface::SurfaceDescriptor;

fn metrics_form(given: MetricsArguments) -> [u64; 32]
    ensures { result ≡ pad 32 0
        (3 ∷ handle_numbers given.view ++ metrics_numbers given.update ++ given.revision ∷ []) }
{
    let update = given.update;
    let safe_area = update.safe_area;
    put(
        handle_form(3, given.view),
        3,
        &[
            update.origin_x_milli.number(),
            update.origin_y_milli.number(),
            update.width_milli.number(),
            update.height_milli.number(),
            update.framebuffer_width.number(),
            update.framebuffer_height.number(),
            update.scale_q16.number(),
            safe_area.top_milli.number(),
            safe_area.right_milli.number(),
            safe_area.bottom_milli.number(),
            safe_area.left_milli.number(),
            update.visibility.number(),
            given.revision,
        ],
    )
}

fn attach_form(d: SurfaceDescriptor) -> [u64; 32]
    ensures { result ≡ pad 32 0 (5 ∷ descriptor_numbers d) }
{
    let words = put(
        handle_form(5, d.view),
        3,
        &[
            d.kind.number(),
            d.z_order.number(),
            d.input.number(),
            d.accepts_text.number(),
        ],
    );
    put(words, 7, &geometry_numbers(d.geometry))
}

fn geometry_form(given: GeometryArguments) -> [u64; 32]
    ensures { result ≡ pad 32 0
        (6 ∷ handle_numbers given.surface ++ geometry_numbers given.geometry ++ given.revision ∷ []) }
{
    let words = put(
        handle_form(6, given.surface),
        3,
        &geometry_numbers(given.geometry),
    );
    put(words, 21, &[given.revision])
}

fn policy_form(given: PolicyArguments) -> [u64; 32]
    ensures { result ≡ pad 32 0
        (7 ∷ handle_numbers given.surface ++ policy_number given.input ∷ given.revision ∷ []) }
{
    put(
        handle_form(7, given.surface),
        3,
        &[given.input.number(), given.revision],
    )
}

pub fn panel_form(call: PanelCall) -> [u64; 32]
    ensures { result ≡ pad 32 0 (panel_numbers call) }
{
    match call {
        PanelCall::CreateWindow => bare_form(0),
        PanelCall::CloseWindow(h) => handle_form(1, h),
        PanelCall::CreateView(h) => handle_form(2, h),
        PanelCall::UpdateViewMetrics(a) => metrics_form(a),
        PanelCall::CloseView(h) => handle_form(4, h),
        PanelCall::AttachSurface(d) => attach_form(d),
        PanelCall::UpdateSurfaceGeometry(a) => geometry_form(a),
        PanelCall::UpdateSurfaceInputPolicy(a) => policy_form(a),
    }
}
