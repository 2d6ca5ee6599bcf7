// The layers of a view: its panels from the lowest z_order to the highest, ties by handle.
ghost use Rattle.std.specs.Prelude.{◌≡◌, [], map, get_or};
ghost use Rattle.std.specs.List.{fold};
ghost use Rattle.lists.specs.Lists.{all};
ghost use Rattle.lists.specs.Tables.{table, entries_of, packed, pushed_within};
ghost use Rattle.records.specs.Surfaces.{no_surface};
ghost use Rattle.records.specs.Layers.{layers as layer_table, z_of, layer_lt, layers_with, layers_without, layers_rise, is_layer_of, records_of};

use crate::surface::{SurfaceRecord, SurfaceTable};
use handles::GenerationalHandle;
use handles::arena::SlotStatus;
use lists::array::item_or;
use lists::table::{Blank, Table};

// The panels of a view.
pub type Layers = Table<GenerationalHandle, 16>;

fn record_at(records: &[SurfaceRecord; 64], surface: GenerationalHandle) -> SurfaceRecord
    ensures { result ≡ get_or records.now surface.index no_surface }
{
    item_or(records, surface.index as usize, SurfaceRecord::BLANK)
}

fn z_order(records: &[SurfaceRecord; 64], surface: GenerationalHandle) -> i32
    ensures { result ≡ z_of records.now surface }
{
    record_at(records, surface).descriptor.z_order
}

// Whether a panel lies below another.
#[tactic(auto, unfolding(crate::specs::Layers::layer_lt))]
pub fn layer_lt(records: &[SurfaceRecord; 64], a: GenerationalHandle, b: GenerationalHandle) -> bool
    ensures { result ≡ layer_lt records.now a b }
{
    (z_order(records, a), a) < (z_order(records, b), b)
}

// Whether a layer is a live panel of a view.
fn is_layer_of(surfaces: &SurfaceTable, view: GenerationalHandle, at: GenerationalHandle) -> bool
    ensures { result ≡ is_layer_of surfaces.now view at }
{
    matches!(handles::arena::lookup(surfaces.arena, at), SlotStatus::Live)
        && record_at(&surfaces.records, at).descriptor.view == view
}

// The layers with a panel in its place, or as they were where there is no room.
pub fn layers_with(
    layers: Layers,
    records: &[SurfaceRecord; 64],
    surface: GenerationalHandle,
) -> Layers
    ensures { result ≡ layers_with records.now surface layers }
{
    if layers.count() >= 16 {
        return layers;
    }
    let below = layers.retain(|at| layer_lt(records, *at, surface));
    let above = layers.retain(|at| layer_lt(records, surface, *at));
    below
        .push_within(surface)
        .extend(above.entries().iter().copied())
}

// The layers without a panel.
pub fn layers_without(layers: Layers, surface: GenerationalHandle) -> Layers
    ensures { result ≡ layers_without surface layers }
{
    layers.retain(|at| *at != surface)
}

// Whether the layers are in layer order, none twice.
pub fn are_rising(layers: Layers, records: &[SurfaceRecord; 64]) -> bool
    ensures { result ≡ layers_rise records.now layers }
{
    layers
        .entries()
        .is_sorted_by(|low, high| layer_lt(records, *low, *high))
}

// Whether each layer is a live panel of a view.
pub fn are_layers_of(layers: Layers, surfaces: &SurfaceTable, view: GenerationalHandle) -> bool
    ensures { result ≡ all (is_layer_of surfaces.now view) (entries_of layer_table layers) }
{
    layers
        .entries()
        .iter()
        .all(|at| is_layer_of(surfaces, view, *at))
}

fn record_table(
    records: &[SurfaceRecord; 64],
    layers: &[GenerationalHandle],
) -> Table<SurfaceRecord, 16>
    ensures { result ≡ fold (pushed_within (table 16 no_surface)) (packed (table 16 no_surface) [])
        (map (λ h. get_or records.now h.index no_surface) layers.now) }
{
    let mut found = Table::new();
    for at in layers {
        found.push_in_place(record_at(records, *at));
    }
    found
}

// The record of each layer, by its place, and blanks after them: so a loop over the layers reads a small array of its
// own, and hands on no table.
pub fn records_of(layers: Layers, records: &[SurfaceRecord; 64]) -> [SurfaceRecord; 16]
    ensures { result ≡ records_of records.now layers }
{
    record_table(records, layers.entries()).items
}
