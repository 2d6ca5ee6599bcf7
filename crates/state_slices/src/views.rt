// A view's record from its numbers.
ghost use Rattle.std.specs.Prelude.{◌≡◌, ◌+◌, ◌≤◌, ◌<◌, length, get_or};
ghost use Rattle.records.specs.Views.{no_view};
ghost use Rattle.state_slices.specs.Layout.{view_size, input_size, fixed_size, moving_size};
ghost use Rattle.state_slices.specs.ViewNumbers.{optional_at, metrics_from, layers_from, capture_at, captures_from, view_from, views_from};

use crate::layout::{INPUT_SIZE, INPUTS_START, VIEW_SIZE, VIEWS_START};
use call_fields::groups::{OptionalNumbers, handle_of, optional_of, pointer_of};
use call_fields::numbered::Numbered;
use geometry::metrics::{ViewInsets, ViewMetrics, ViewVisibility};
use handles::GenerationalHandle;
use lists::table::Table;
use maps::captures::{Capture, PointerCaptures};
use records::layers::Layers;
use records::view::ViewRecord;
use slices::least;

pub fn optional_from(b: &[u64], k: usize) -> Option<GenerationalHandle>
    requires { k + 3 ≤ length b.now }
    ensures { result ≡ optional_at b.now k }
{
    optional_of(OptionalNumbers {
        present: b[k],
        index: b[k + 1],
        generation: b[k + 2],
    })
}

#[tactic(auto, unfolding(crate::specs::ViewNumbers::metrics_from))]
fn insets_from(b: &[u64]) -> ViewInsets
    requires { length b.now ≡ view_size }
    ensures { result ≡ (metrics_from b.now).safe_area }
{
    ViewInsets {
        top_milli: u32::from_number(b[10]),
        right_milli: u32::from_number(b[11]),
        bottom_milli: u32::from_number(b[12]),
        left_milli: u32::from_number(b[13]),
    }
}

#[tactic(auto, unfolding(crate::specs::ViewNumbers::metrics_from))]
fn metrics_from(b: &[u64]) -> ViewMetrics
    requires { length b.now ≡ view_size }
    ensures { result ≡ metrics_from b.now }
{
    ViewMetrics {
        revision: b[2],
        origin_x_milli: i32::from_number(b[3]),
        origin_y_milli: i32::from_number(b[4]),
        width_milli: u32::from_number(b[5]),
        height_milli: u32::from_number(b[6]),
        framebuffer_width: u32::from_number(b[7]),
        framebuffer_height: u32::from_number(b[8]),
        scale_q16: u32::from_number(b[9]),
        safe_area: insets_from(b),
        visibility: ViewVisibility::from_number(b[14]),
    }
}

pub fn layers_from(b: &[u64]) -> Layers
    requires { length b.now ≡ view_size }
    ensures { result ≡ layers_from b.now }
{
    let mut items = [GenerationalHandle::ZERO; 16];
    let k = b[15] as usize;
    for i in 0..least(k, 16) {
        items[i] = handle_of(b[16 + i * 2], b[17 + i * 2]);
    }
    Layers { items, len: k }
}

fn capture_from(m: &[u64], i: usize) -> Capture
    requires { (length m.now ≡ input_size) × (i < 32) }
    ensures { result ≡ capture_at m.now i }
{
    Capture {
        pointer: pointer_of(m[10 + i * 5], m[11 + i * 5], m[12 + i * 5]),
        surface: handle_of(m[13 + i * 5], m[14 + i * 5]),
    }
}

pub fn captures_from(m: &[u64]) -> PointerCaptures
    requires { length m.now ≡ input_size }
    ensures { result ≡ captures_from m.now }
{
    let mut items = [Capture::ZERO; 32];
    let k = m[9] as usize;
    for i in 0..least(k, 32) {
        items[i] = capture_from(m, i);
    }
    PointerCaptures {
        table: Table { items, len: k },
    }
}

// A view's numbers in the fixed slice, and those in the moving one.
#[tactic(auto, unfolding(crate::specs::ViewNumbers::view_from))]
pub fn view_from(b: &[u64], m: &[u64]) -> ViewRecord
    requires { (length b.now ≡ view_size) × (length m.now ≡ input_size) }
    ensures { result ≡ view_from b.now m.now }
{
    ViewRecord {
        window: handle_of(b[0], b[1]),
        metrics: metrics_from(b),
        surfaces: layers_from(b),
        focus: optional_from(m, 0),
        pointer_capture: optional_from(m, 3),
        pointer_captures: captures_from(m),
        ime: optional_from(m, 6),
    }
}

// The record of the view in a slot; past the table a blank.
pub fn view_at(fixed: &[u64], moving: &[u64], i: usize) -> ViewRecord
    requires { (length fixed.now ≡ fixed_size) × (length moving.now ≡ moving_size) }
    ensures { result ≡ get_or (views_from fixed.now moving.now) i no_view }
{
    if i < 16 {
        let at = VIEWS_START + i * VIEW_SIZE;
        let end = at + VIEW_SIZE;
        let from = INPUTS_START + i * INPUT_SIZE;
        let to = from + INPUT_SIZE;
        return view_from(&fixed[at..end], &moving[from..to]);
    }
    ViewRecord::new(GenerationalHandle::ZERO)
}
