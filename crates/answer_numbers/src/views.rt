// The numbers of views, and of a view's captures and layers.
ghost use Rattle.std.specs.Prelude.{get_or};
ghost use Rattle.records.specs.Views.{no_view};
ghost use Rattle.answer_numbers.specs.Views.{view_layers_numbers, view_numbers};

use crate::arenas::SlotValues;
use crate::numbered::Numbered;
use crate::writer::Writer;
use lists::array::item_or;
use lists::table::Blank;
use records::layers::Layers;
use records::surface::SurfaceTable;
use records::view::{ViewRecord, ViewTable};

// The layers of a view and the table that has their descriptors.
#[derive(Clone, Copy)]
pub struct DescribedLayers<'a> {
    pub layers: &'a Layers,
    pub surfaces: &'a SurfaceTable,
}

// The layers with their descriptors, lowest first.
impl Numbered for DescribedLayers<'_> {
    ghost numbers = { λ d. view_layers_numbers d.layers.now d.surfaces.now };

    fn write(&self, to: &mut Writer<'_>) {
        let layers = self.layers.entries();
        layers.len().write(to);
        for layer in layers {
            layer.write(to);
            self.surfaces.descriptor(*layer).write(to);
        }
    }
}

impl Numbered for ViewRecord {
    ghost numbers = { view_numbers };

    fn write(&self, to: &mut Writer<'_>) {
        self.window.write(to);
        self.metrics.write(to);
        self.surfaces.write(to);
        self.focus.write(to);
        self.pointer_capture.write(to);
        self.pointer_captures.write(to);
        self.ime.write(to);
    }
}

impl SlotValues for ViewTable {
    ghost value = { λ t i. view_numbers (get_or t.records i no_view) };

    fn write_value(&self, i: usize, to: &mut Writer<'_>) {
        let view = item_or(&self.records, i, ViewRecord::BLANK);
        view.write(to);
    }
}
