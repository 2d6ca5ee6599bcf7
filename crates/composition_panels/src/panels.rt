// Panels: attach, geometry and policy.
ghost use Rattle.std.specs.Prelude.{◌≡◌};
ghost use Rattle.composition_panels.specs.Panels.{layer_count, attach_refusal, surface_added, layer_added, attached, attach_surface, geometry_refusal, update_surface_geometry, policy_refusal, update_surface_input_policy};

use crate::answer::Created;
use composition_state::registry::{Answered, Changed, CompositionRegistry, expect_revision};
use geometry::surface::{SurfaceGeometry, validate_geometry};
use handles::GenerationalHandle;
use handles::arena::{Allocation, allocate};
use records::error::{CompositionError, Outcome, refuse_if};
use records::layers::layers_with;
use records::shortcut::shortcuts_without;
use records::surface::{SurfaceDescriptor, SurfaceInputPolicy, SurfaceRecord, SurfaceTable};
use records::view::ViewTable;

fn layer_count(views: ViewTable, view: GenerationalHandle) -> usize
    ensures { result ≡ layer_count views view }
{
    views.record(view).surfaces.count()
}

fn attach_refusal(registry: CompositionRegistry, descriptor: SurfaceDescriptor) -> Outcome
    ensures { result ≡ attach_refusal registry descriptor }
{
    registry.damage()?;
    refuse_if(
        !validate_geometry(descriptor.geometry),
        CompositionError::InvalidGeometry,
    )?;
    registry.views.refusal(descriptor.view)?;
    let layered = layer_count(registry.views, descriptor.view) as u64;
    refuse_if(
        layered == registry.limits.max_surfaces_per_view,
        CompositionError::PerViewCapacity,
    )?;
    let live = registry.surfaces.arena.live as u64;
    refuse_if(
        live == registry.limits.max_surfaces,
        CompositionError::Capacity,
    )
}

fn add_surface(
    surfaces: SurfaceTable,
    made: Allocation,
    descriptor: SurfaceDescriptor,
) -> SurfaceTable
    ensures { result ≡ surface_added made descriptor surfaces }
{
    surfaces
        .with_arena(made.arena)
        .with_record(made.handle, SurfaceRecord { descriptor })
}

fn add_layer(
    views: ViewTable,
    records: &[SurfaceRecord; 64],
    surface: GenerationalHandle,
    owner: GenerationalHandle,
) -> ViewTable
    ensures { result ≡ layer_added records.now surface owner views }
{
    let view = views.record(owner);
    let layers = layers_with(view.surfaces, records, surface);
    views.with_record(owner, view.with_surfaces(layers))
}

#[tactic(auto, unfolding(crate::specs::Panels::attached))]
fn attach(
    registry: CompositionRegistry,
    made: Allocation,
    descriptor: SurfaceDescriptor,
) -> CompositionRegistry
    ensures { result ≡ attached made descriptor registry }
{
    let surfaces = add_surface(registry.surfaces, made, descriptor);
    let views = add_layer(
        registry.views,
        &surfaces.records,
        made.handle,
        descriptor.view,
    );
    registry
        .with_surfaces(surfaces)
        .with_views(views)
        .with_shortcuts(shortcuts_without(registry.shortcuts, made.handle.index))
}

// A new panel in a view, in its place among the layers.
#[tactic(auto, unfolding(crate::specs::Panels::attach_surface))]
pub fn attach_surface(registry: CompositionRegistry, descriptor: SurfaceDescriptor) -> Created
    ensures { result ≡ attach_surface registry descriptor }
{
    let refusal = attach_refusal(registry, descriptor);
    let made = allocate(registry.surfaces.arena, registry.first_generation);
    Answered::with(
        made.handle,
        registry.settle(refusal, attach(registry, made, descriptor)),
    )
}

fn geometry_refusal(
    registry: CompositionRegistry,
    surface: GenerationalHandle,
    geometry: SurfaceGeometry,
    expected: u64,
) -> Outcome
    ensures { result ≡ geometry_refusal registry surface geometry expected }
{
    registry.damage()?;
    expect_revision(registry.revision, expected)?;
    refuse_if(
        !validate_geometry(geometry),
        CompositionError::InvalidGeometry,
    )?;
    registry.surfaces.refusal(surface)
}

// The bounds, clip, matrix, opacity and hit testing of a panel change.
#[tactic(auto, unfolding(crate::specs::Panels::update_surface_geometry))]
pub fn update_surface_geometry(
    registry: CompositionRegistry,
    surface: GenerationalHandle,
    geometry: SurfaceGeometry,
    expected_revision: u64,
) -> Changed
    ensures { result ≡ update_surface_geometry registry surface geometry expected_revision }
{
    let refusal = geometry_refusal(registry, surface, geometry, expected_revision);
    let record = registry.surfaces.record(surface).with_geometry(geometry);
    registry.settle(
        refusal,
        registry.with_surfaces(registry.surfaces.with_record(surface, record)),
    )
}

fn policy_refusal(
    registry: CompositionRegistry,
    surface: GenerationalHandle,
    expected: u64,
) -> Outcome
    ensures { result ≡ policy_refusal registry surface expected }
{
    registry.damage()?;
    expect_revision(registry.revision, expected)?;
    registry.surfaces.refusal(surface)
}

// What a panel does with the events that reach it changes; nothing else does.
#[tactic(auto, unfolding(crate::specs::Panels::update_surface_input_policy))]
pub fn update_surface_input_policy(
    registry: CompositionRegistry,
    surface: GenerationalHandle,
    input: SurfaceInputPolicy,
    expected_revision: u64,
) -> Changed
    ensures { result ≡ update_surface_input_policy registry surface input expected_revision }
{
    let refusal = policy_refusal(registry, surface, expected_revision);
    let record = registry.surfaces.record(surface).with_input(input);
    registry.settle(
        refusal,
        registry.with_surfaces(registry.surfaces.with_record(surface, record)),
    )
}
