// What several of these calls refuse, and how they leave the registry.
ghost use Rattle.std.specs.Prelude.{◌≡◌};
ghost use Rattle.composition_input.specs.Focus.{entry_refusal, with_view_record};
ghost use Rattle.composition_input.specs.Captures.{owner_refusal};

use composition_state::registry::{CompositionRegistry, expect_revision};
use handles::GenerationalHandle;
use records::error::Outcome;
use records::view::ViewRecord;

// How every call with an expected revision starts.
pub fn entry_refusal(registry: CompositionRegistry, expected_revision: u64) -> Outcome
    ensures { result ≡ entry_refusal registry expected_revision }
{
    registry.damage()?;
    expect_revision(registry.revision, expected_revision)
}

// What both releases of a pointer refuse before they look whether the panel has it.
pub fn owner_refusal(
    registry: CompositionRegistry,
    surface: GenerationalHandle,
    expected_revision: u64,
) -> Outcome
    ensures { result ≡ owner_refusal registry surface expected_revision }
{
    entry_refusal(registry, expected_revision)?;
    registry.surfaces.refusal(surface)?;
    registry
        .views
        .refusal(registry.surfaces.descriptor(surface).view)
}

// The registry with another record for a view.
pub fn with_view_record(
    registry: CompositionRegistry,
    view: GenerationalHandle,
    record: ViewRecord,
) -> CompositionRegistry
    ensures { result ≡ with_view_record view «record» registry }
{
    registry.with_views(registry.views.with_record(view, record))
}
