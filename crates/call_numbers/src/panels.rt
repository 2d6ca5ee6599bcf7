// The calls on windows, views and panels: numbers 0 to 7.

#![tactic(auto, unfolding(crate::specs::Panels::descriptor_at, crate::specs::Panels::panel_at))]

ghost use Rattle.std.specs.Prelude.{◌≡◌};
ghost use Rattle.call_numbers.specs.Panels.{descriptor_at, panel_at};

use crate::geometries::{geometry_at, metrics_at};
use crate::words::handle_at;
use call_fields::numbered::Numbered;
use calls::arguments::{GeometryArguments, MetricsArguments, PolicyArguments};
use calls::call::PanelCall;
use records::surface::{SurfaceDescriptor, SurfaceInputPolicy, SurfaceKind};

fn descriptor_at(words: [u64; 32]) -> SurfaceDescriptor
    ensures { result ≡ descriptor_at words }
{
    SurfaceDescriptor {
        view: handle_at(words, 1),
        kind: SurfaceKind::from_number(words[3]),
        z_order: i32::from_number(words[4]),
        input: SurfaceInputPolicy::from_number(words[5]),
        accepts_text: bool::from_number(words[6]),
        geometry: geometry_at(words, 7),
    }
}

// The call of a number from 0 to 7; any other is read as the last.
pub fn panel_at(words: [u64; 32]) -> PanelCall
    ensures { result ≡ panel_at words }
{
    let handle = handle_at(words, 1);
    match words[0] {
        0 => PanelCall::CreateWindow,
        1 => PanelCall::CloseWindow(handle),
        2 => PanelCall::CreateView(handle),
        3 => PanelCall::UpdateViewMetrics(MetricsArguments {
            view: handle,
            update: metrics_at(words, 3),
            revision: words[15],
        }),
        4 => PanelCall::CloseView(handle),
        5 => PanelCall::AttachSurface(descriptor_at(words)),
        6 => PanelCall::UpdateSurfaceGeometry(GeometryArguments {
            surface: handle,
            geometry: geometry_at(words, 3),
            revision: words[21],
        }),
        _ => PanelCall::UpdateSurfaceInputPolicy(PolicyArguments {
            surface: handle,
            input: SurfaceInputPolicy::from_number(words[3]),
            revision: words[4],
        }),
    }
}
