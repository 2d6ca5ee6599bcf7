// A panel's record from its numbers, and the panels of a view.
ghost use Rattle.std.specs.Prelude.{◌≡◌, ◌+◌, ◌≤◌, [], map, length, get_or};
ghost use Rattle.std.specs.List.{fold};
ghost use Rattle.lists.specs.Tables.{table, packed, pushed_within};
ghost use Rattle.records.specs.Surfaces.{no_surface};
ghost use Rattle.records.specs.Layers.{records_of};
ghost use Rattle.view_panels.specs.Panels.{panels_of};
ghost use Rattle.state_slices.specs.Layout.{panel_size, fixed_size};
ghost use Rattle.state_slices.specs.PanelNumbers.{rect_at, transform_from, geometry_from, panel_from, panels_from};

use crate::layout::{PANEL_SIZE, PANELS_START};
use call_fields::groups::{RectNumbers, handle_of, rect_of};
use call_fields::numbered::Numbered;
use geometry::rect::SurfaceRect;
use geometry::surface::SurfaceGeometry;
use geometry::transform::SurfaceTransform;
use handles::GenerationalHandle;
use lists::table::{Blank, Table};
use records::layers::Layers;
use records::surface::{SurfaceDescriptor, SurfaceInputPolicy, SurfaceKind, SurfaceRecord};
use view_panels::ViewPanels;

fn rect_from(b: &[u64], k: usize) -> Option<SurfaceRect>
    requires { k + 5 ≤ length b.now }
    ensures { result ≡ rect_at b.now k }
{
    rect_of(RectNumbers {
        present: b[k],
        x_milli: b[k + 1],
        y_milli: b[k + 2],
        width_milli: b[k + 3],
        height_milli: b[k + 4],
    })
}

#[tactic(auto, unfolding(crate::specs::PanelNumbers::transform_from))]
fn transform_from(b: &[u64]) -> SurfaceTransform
    requires { length b.now ≡ panel_size }
    ensures { result ≡ transform_from b.now }
{
    SurfaceTransform {
        m11_q16: i32::from_number(b[16]),
        m12_q16: i32::from_number(b[17]),
        m21_q16: i32::from_number(b[18]),
        m22_q16: i32::from_number(b[19]),
        translate_x_milli: i32::from_number(b[20]),
        translate_y_milli: i32::from_number(b[21]),
    }
}

#[tactic(auto, unfolding(crate::specs::PanelNumbers::geometry_from))]
fn geometry_from(b: &[u64]) -> SurfaceGeometry
    requires { length b.now ≡ panel_size }
    ensures { result ≡ geometry_from b.now }
{
    SurfaceGeometry {
        bounds: rect_from(b, 6),
        clip: rect_from(b, 11),
        transform: transform_from(b),
        opacity_q16: u16::from_number(b[22]),
        hit_test_enabled: bool::from_number(b[23]),
    }
}

#[tactic(auto, unfolding(crate::specs::PanelNumbers::panel_from))]
pub fn panel_from(b: &[u64]) -> SurfaceRecord
    requires { length b.now ≡ panel_size }
    ensures { result ≡ panel_from b.now }
{
    SurfaceRecord {
        descriptor: SurfaceDescriptor {
            view: handle_of(b[0], b[1]),
            kind: SurfaceKind::from_number(b[2]),
            z_order: i32::from_number(b[3]),
            input: SurfaceInputPolicy::from_number(b[4]),
            accepts_text: bool::from_number(b[5]),
            geometry: geometry_from(b),
        },
    }
}

// The record of the panel in a slot; past the table a blank.
pub fn panel_at(fixed: &[u64], i: usize) -> SurfaceRecord
    requires { length fixed.now ≡ fixed_size }
    ensures { result ≡ get_or (panels_from fixed.now) i no_surface }
{
    if i < 64 {
        let at = PANELS_START + i * PANEL_SIZE;
        let end = at + PANEL_SIZE;
        return panel_from(&fixed[at..end]);
    }
    SurfaceRecord::BLANK
}

fn record_table(fixed: &[u64], layers: &[GenerationalHandle]) -> Table<SurfaceRecord, 16>
    requires { length fixed.now ≡ fixed_size }
    ensures { result ≡ fold (pushed_within (table 16 no_surface)) (packed (table 16 no_surface) [])
        (map (λ h. get_or (panels_from fixed.now) h.index no_surface) layers.now) }
{
    let mut found = Table::new();
    for at in layers {
        found.push_in_place(panel_at(fixed, at.index as usize));
    }
    found
}

fn records_at(fixed: &[u64], layers: Layers) -> [SurfaceRecord; 16]
    requires { length fixed.now ≡ fixed_size }
    ensures { result ≡ records_of (panels_from fixed.now) layers }
{
    record_table(fixed, layers.entries()).items
}

// Layers with the records that stand in their slots.
pub fn gather(fixed: &[u64], layers: Layers) -> ViewPanels
    requires { length fixed.now ≡ fixed_size }
    ensures { result ≡ panels_of (panels_from fixed.now) layers }
{
    let found = records_at(fixed, layers);
    ViewPanels {
        layers,
        records: found,
    }
}
