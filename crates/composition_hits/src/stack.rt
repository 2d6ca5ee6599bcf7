// The hit test of a view's layers.
ghost use Rattle.std.specs.Prelude.{◌≡◌, ◌≤◌, length, Ok, Err, OnOk, IfOk, IfErr};
ghost use Rattle.geometry.specs.Surface.{is_hit};
ghost use Rattle.view_panels.specs.Panels.{standing};
ghost use Rattle.composition_hits.specs.Buffer.{written, numbers_of};
ghost use Rattle.composition_hits.specs.HitTest.{hits_among, layers_of, hit_test_refusal, hit_numbers, hit_test, buffer_after};

use composition_state::registry::CompositionRegistry;
use geometry::transform::Point;
use handles::GenerationalHandle;
use records::error::{CompositionError, Outcome, refuse_if};
use records::layers::Layers;
use records::surface::SurfaceRecord;
use records::view::ViewTable;
use view_panels::{ViewPanels, gather};

// Whether a panel is hit, by its record.
pub fn is_record_hit(record: SurfaceRecord, point: Point) -> bool
    ensures { result ≡ is_hit «record».descriptor.geometry point.x_milli point.y_milli }
{
    record
        .descriptor
        .geometry
        .is_hit(point.x_milli, point.y_milli)
}

// The hits' numbers at the front of the buffer. Answers how many numbers. A panel and its record stand at one index of
// two arrays.
#[tactic(auto, unfolding(crate::specs::HitTest::hits_among, crate::specs::Buffer::written))]
fn fill(panels: ViewPanels, point: Point, buffer: &mut [u64]) -> usize
    requires { 32 ≤ length buffer.old }
    ensures place { result ≡ length (numbers_of (hits_among point (standing panels))) }
    ensures filled { buffer.new
        ≡ written buffer.old (numbers_of (hits_among point (standing panels))) }
{
    let mut at: usize = 0;
    for i in (0..panels.layers.count()).rev() {
        let is_hit = is_record_hit(panels.records[i], point);
        at = crate::buffer::put_if(buffer, at, panels.layers.items[i], is_hit);
    }
    at
}

pub fn layers_of(views: &ViewTable, view: GenerationalHandle) -> Layers
    ensures { result ≡ layers_of views.now view }
{
    views.record(view).surfaces
}

// RULES.md, Hit test: 42, 8/9, 41.
pub fn hit_test_refusal(
    registry: CompositionRegistry,
    view: GenerationalHandle,
    size: usize,
) -> Outcome
    ensures { result ≡ hit_test_refusal registry view size }
{
    registry.damage()?;
    registry.views.refusal(view)?;
    refuse_if(size < 32, CompositionError::PortLimit)
}

// The whole promise: the refusal or how many numbers stand at the front, and the whole buffer afterwards.
#[tactic(auto, unfolding(crate::specs::HitTest::hit_test, crate::specs::HitTest::buffer_after))]
pub fn hit_test_into(
    registry: CompositionRegistry,
    view: GenerationalHandle,
    point: Point,
    buffer: &mut [u64],
) -> Result<usize, CompositionError>
    ensures answer { result ≡ hit_test registry view point (length buffer.old) }
    ensures written { buffer.new ≡ buffer_after registry view point buffer.old }
{
    hit_test_refusal(registry, view, buffer.len())?;
    let panels = gather(&registry.surfaces.records, layers_of(&registry.views, view));
    Ok(fill(panels, point, buffer))
}

// The filled front part of the buffer, from its first place on, or the refusal. The registry is only read. The buffer
// is spent in the result, so no clause here can name what stands behind the front part; `hit_test_into` says it.
#[tactic(auto, unfolding(crate::specs::HitTest::hit_numbers))]
pub fn hit_test_stack<'a>(
    registry: CompositionRegistry,
    view: GenerationalHandle,
    point: Point,
    buffer: &'a mut [u64],
) -> Result<&'a mut [u64], CompositionError>
    ensures accepted { OnOk result (hit_test_refusal registry view (length buffer.old) ≡ Ok tt) }
    ensures refused { IfErr result (λ e. hit_test_refusal registry view (length buffer.old) ≡ Err e) }
    ensures front { IfOk result (λ s. s.now ≡ hit_numbers registry view point (length buffer.old)) }
    ensures start { IfOk result (λ s. s.ref_ptr ≡ buffer.entry.ref_ptr) }
{
    match hit_test_into(registry, view, point, buffer) {
        Ok(n) => Ok(&mut buffer[..n]),
        Err(error) => Err(error),
    }
}
