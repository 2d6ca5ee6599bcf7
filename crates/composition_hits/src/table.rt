// The hits of a view as a table, for the calls that hand them on.
ghost use Rattle.std.specs.Prelude.{◌≡◌};
ghost use Rattle.lists.specs.Tables.{packed};
ghost use Rattle.records.specs.Traces.{hits as state_hits};
ghost use Rattle.view_panels.specs.Panels.{standing};
ghost use Rattle.composition_hits.specs.HitTest.{hits_among, view_hits};

use crate::stack::{is_record_hit, layers_of};
use composition_state::registry::CompositionRegistry;
use geometry::transform::Point;
use handles::GenerationalHandle;
use records::trace::Hits;
use view_panels::{ViewPanels, gather};

// The panels under a point, topmost first. A panel and its record stand at one index of two arrays.
#[tactic(auto, unfolding(crate::specs::HitTest::hits_among))]
pub fn list_hits(panels: ViewPanels, point: Point) -> Hits
    ensures { result ≡ packed state_hits (hits_among point (standing panels)) }
{
    let mut hits = Hits::new();
    for i in (0..panels.layers.count()).rev() {
        if is_record_hit(panels.records[i], point) {
            hits.push_in_place(panels.layers.items[i]);
        }
    }
    hits
}

// The panels under a point of a view, topmost first. The caller has tested the registry and the view.
#[tactic(auto, using(view_panels::proofs::PanelLaws::standing_gathered), unfolding(crate::specs::HitTest::view_hits))]
pub fn view_hits(registry: &CompositionRegistry, view: GenerationalHandle, point: Point) -> Hits
    ensures { result ≡ packed state_hits (view_hits registry.now view point) }
{
    let panels = gather(&registry.surfaces.records, layers_of(&registry.views, view));
    list_hits(panels, point)
}
