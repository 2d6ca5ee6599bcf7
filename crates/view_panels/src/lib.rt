// One view's panels in layer order, each with its record: what the walk and the hits read.

#![tactic(auto)]

ghost use Rattle.std.specs.Prelude.{◌≡◌};
ghost use Rattle.view_panels.specs.Panels.{panels_of};

use records::layers::{Layers, records_of};
use records::surface::SurfaceRecord;

// The record of the layer at place i stands at place i.
#[derive(Clone, Copy)]
pub struct ViewPanels {
    pub layers: Layers,
    pub records: [SurfaceRecord; 16],
}

// Layers with the records that stand in their slots, so that what reads them needs no table.
pub fn gather(records: &[SurfaceRecord; 64], layers: Layers) -> ViewPanels
    ensures { result ≡ panels_of records.now layers }
{
    ViewPanels {
        layers,
        records: records_of(layers, records),
    }
}
