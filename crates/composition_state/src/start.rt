// The start of a registry, and the limits that it accepts.
ghost use Rattle.std.specs.Prelude.{◌≡◌};
ghost use Rattle.composition_state.specs.Start.{any_zero, any_over_u32, any_over_port, is_unowned, is_misconfigured, start_refusal, fresh_registry, unusable_registry, started};

use crate::registry::{Changed, CompositionLimits, CompositionRegistry};
use handles::GenerationalHandle;
use handles::arena::Arena;
use lists::table::Blank;
use records::error::{CompositionError, Outcome, refuse_if};
use records::shortcut::Shortcuts;
use records::surface::{SurfaceRecord, SurfaceTable};
use records::trace::Traces;
use records::view::{ViewRecord, ViewTable};

pub fn any_zero(limits: CompositionLimits) -> bool
    ensures { result ≡ any_zero limits }
{
    limits.max_windows == 0
        || limits.max_views == 0
        || limits.max_surfaces == 0
        || limits.max_surfaces_per_view == 0
        || limits.max_trace_entries == 0
}

// Slots are numbered by a u32.
fn any_over_u32(limits: CompositionLimits) -> bool
    ensures { result ≡ any_over_u32 limits }
{
    4294967295 < limits.max_windows
        || 4294967295 < limits.max_views
        || 4294967295 < limits.max_surfaces
}

pub fn any_over_port(limits: CompositionLimits) -> bool
    ensures { result ≡ any_over_port limits }
{
    8 < limits.max_windows
        || 16 < limits.max_views
        || 64 < limits.max_surfaces
        || 16 < limits.max_surfaces_per_view
        || 32 < limits.max_trace_entries
}

fn is_unowned(session: GenerationalHandle, session_epoch: u64) -> bool
    ensures { result ≡ is_unowned session session_epoch }
{
    !session.is_valid() || session_epoch == 0
}

fn is_misconfigured(limits: CompositionLimits, first_generation: u32) -> bool
    ensures { result ≡ is_misconfigured limits first_generation }
{
    any_zero(limits) || any_over_u32(limits) || first_generation == 0
}

fn start_refusal(
    session: GenerationalHandle,
    session_epoch: u64,
    limits: CompositionLimits,
    first_generation: u32,
) -> Outcome
    ensures { result ≡ start_refusal session session_epoch limits first_generation }
{
    refuse_if(
        is_unowned(session, session_epoch),
        CompositionError::InvalidOwner,
    )?;
    refuse_if(
        is_misconfigured(limits, first_generation),
        CompositionError::InvalidConfig,
    )?;
    refuse_if(any_over_port(limits), CompositionError::PortLimit)
}

// A registry with no window, view or panel.
#[tactic(auto, unfolding(crate::specs::Start::fresh_registry, lists::specs::Tables::packed))]
fn fresh(
    session: GenerationalHandle,
    session_epoch: u64,
    limits: CompositionLimits,
    revision: u64,
    first_generation: u32,
) -> CompositionRegistry
    ensures { result ≡ fresh_registry session session_epoch limits revision first_generation }
{
    let arena = Arena::new();
    CompositionRegistry {
        session,
        session_epoch,
        limits,
        first_generation,
        revision,
        windows: arena,
        views: ViewTable {
            arena,
            records: [ViewRecord::BLANK; 16],
        },
        surfaces: SurfaceTable {
            arena,
            records: [SurfaceRecord::BLANK; 64],
        },
        shortcuts: Shortcuts::new(),
        traces: Traces::new(),
    }
}

// What a refused start answers: a registry with no limits, which every call refuses as damaged.
fn unusable() -> CompositionRegistry
    ensures { result ≡ unusable_registry }
{
    let limits = CompositionLimits {
        max_windows: 0,
        max_views: 0,
        max_surfaces: 0,
        max_surfaces_per_view: 0,
        max_trace_entries: 0,
    };
    fresh(GenerationalHandle::ZERO, 0, limits, 0, 0)
}

impl CompositionRegistry {
    // The added start, with the first revision and the first generation of a slot.
    pub fn new_at(
        session: GenerationalHandle,
        session_epoch: u64,
        limits: CompositionLimits,
        first_revision: u64,
        first_generation: u32,
    ) -> Changed
        ensures { result ≡ started session session_epoch limits first_revision first_generation }
    {
        let outcome = start_refusal(session, session_epoch, limits, first_generation);
        let registry = if outcome.is_ok() {
            fresh(
                session,
                session_epoch,
                limits,
                first_revision,
                first_generation,
            )
        } else {
            unusable()
        };
        Changed { outcome, registry }
    }

    // A registry with nothing in it, at revision 0.
    pub fn new(
        session: GenerationalHandle,
        session_epoch: u64,
        limits: CompositionLimits,
    ) -> Changed
        ensures { result ≡ started session session_epoch limits 0 1 }
    {
        CompositionRegistry::new_at(session, session_epoch, limits, 0, 1)
    }
}
