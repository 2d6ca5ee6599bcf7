// What a caller reads of a registry. A damaged registry is refused first, and then a handle that is not live.

#![tactic(auto)]

ghost use Rattle.std.specs.Prelude.{◌≡◌, [], map};
ghost use Rattle.std.specs.List.{fold};
ghost use Rattle.lists.specs.Tables.{entries_of, packed, pushed_within};
ghost use Rattle.records.specs.Layers.{layers as state_layers};
ghost use Rattle.records.specs.Surfaces.{descriptor_of};
ghost use Rattle.composition_reads.specs.Reads.{view_read, surface_read, traces_read, view_window, view_metrics, view_input_state, view_pointer_captures, descriptors, view_layers, surface_descriptor};

use composition_state::registry::CompositionRegistry;
use geometry::metrics::ViewMetrics;
use handles::GenerationalHandle;
use lists::table::Table;
use maps::captures::PointerCaptures;
use records::error::CompositionError;
use records::layers::Layers;
use records::surface::{SurfaceDescriptor, SurfaceRecord, SurfaceTable};
use records::trace::Traces;
use records::view::{ViewInputState, ViewRecord};

// The descriptors of a view's panels, from the lowest layer to the highest.
pub type Descriptors = Table<SurfaceDescriptor, 16>;

// The layers from the lowest on, and the descriptor of each at the same place.
#[derive(Clone, Copy)]
pub struct DescribedLayers {
    pub layers: Layers,
    pub descriptors: Descriptors,
}

// The record of a view.
fn view_read(
    registry: CompositionRegistry,
    view: GenerationalHandle,
) -> Result<ViewRecord, CompositionError>
    ensures { result ≡ view_read registry view }
{
    registry.damage()?;
    registry.views.refusal(view)?;
    Ok(registry.views.record(view))
}

// The record of a panel.
fn surface_read(
    registry: CompositionRegistry,
    surface: GenerationalHandle,
) -> Result<SurfaceRecord, CompositionError>
    ensures { result ≡ surface_read registry surface }
{
    registry.damage()?;
    registry.surfaces.refusal(surface)?;
    Ok(registry.surfaces.record(surface))
}

// The window that a view stands in.
pub fn view_window(
    registry: CompositionRegistry,
    view: GenerationalHandle,
) -> Result<GenerationalHandle, CompositionError>
    ensures { result ≡ view_window registry view }
{
    Ok(view_read(registry, view)?.window)
}

// The metrics of a view.
pub fn view_metrics(
    registry: CompositionRegistry,
    view: GenerationalHandle,
) -> Result<ViewMetrics, CompositionError>
    ensures { result ≡ view_metrics registry view }
{
    Ok(view_read(registry, view)?.metrics)
}

// The focus, the single capture field and the composition of a view.
pub fn view_input_state(
    registry: CompositionRegistry,
    view: GenerationalHandle,
) -> Result<ViewInputState, CompositionError>
    ensures { result ≡ view_input_state registry view }
{
    Ok(view_read(registry, view)?.input_state())
}

// The captured pointers of a view, each with its panel.
pub fn view_pointer_captures(
    registry: CompositionRegistry,
    view: GenerationalHandle,
) -> Result<PointerCaptures, CompositionError>
    ensures { result ≡ view_pointer_captures registry view }
{
    Ok(view_read(registry, view)?.pointer_captures)
}

// What describes each layer.
fn described(surfaces: SurfaceTable, layers: &[GenerationalHandle]) -> Descriptors
    ensures { result ≡ fold (pushed_within descriptors) (packed descriptors [])
        (map (descriptor_of surfaces) layers.now) }
{
    let mut found = Descriptors::new();
    for surface in layers {
        found.push_in_place(surfaces.descriptor(*surface));
    }
    found
}

// The descriptor of each layer.
fn describe(surfaces: SurfaceTable, layers: Layers) -> Descriptors
    ensures { result ≡ packed descriptors (map (descriptor_of surfaces) (entries_of state_layers layers)) }
{
    described(surfaces, layers.entries())
}

// The panels of a view, lowest first, each with its descriptor.
pub fn view_layers(
    registry: CompositionRegistry,
    view: GenerationalHandle,
) -> Result<DescribedLayers, CompositionError>
    ensures { result ≡ view_layers registry view }
{
    let layers = view_read(registry, view)?.surfaces;
    Ok(DescribedLayers {
        layers,
        descriptors: describe(registry.surfaces, layers),
    })
}

// What a panel was attached with, as it stands now.
pub fn surface_descriptor(
    registry: CompositionRegistry,
    surface: GenerationalHandle,
) -> Result<SurfaceDescriptor, CompositionError>
    ensures { result ≡ surface_descriptor registry surface }
{
    Ok(surface_read(registry, surface)?.descriptor)
}

// The last arbitrations, oldest first.
pub fn traces(registry: CompositionRegistry) -> Result<Traces, CompositionError>
    ensures { result ≡ traces_read registry }
{
    registry.damage()?;
    Ok(registry.traces)
}

// The plain read-outs, which no registry refuses.
pub fn session(registry: CompositionRegistry) -> GenerationalHandle
    ensures { result ≡ registry.session }
{
    registry.session
}

// The epoch that the registry was started with.
pub fn session_epoch(registry: CompositionRegistry) -> u64
    ensures { result ≡ registry.session_epoch }
{
    registry.session_epoch
}

// How often the registry has changed, counted from its first revision.
pub fn revision(registry: CompositionRegistry) -> u64
    ensures { result ≡ registry.revision }
{
    registry.revision
}

// How many windows are live.
pub fn live_window_count(registry: CompositionRegistry) -> usize
    ensures { result ≡ registry.windows.live }
{
    registry.windows.live
}

// How many views are live.
pub fn live_view_count(registry: CompositionRegistry) -> usize
    ensures { result ≡ registry.views.arena.live }
{
    registry.views.arena.live
}

// How many panels are live.
pub fn live_surface_count(registry: CompositionRegistry) -> usize
    ensures { result ≡ registry.surfaces.arena.live }
{
    registry.surfaces.arena.live
}
