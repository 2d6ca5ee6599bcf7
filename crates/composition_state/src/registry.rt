// The registry: one value that holds all windows, views and panels.
ghost use Rattle.std.specs.Prelude.{◌≡◌};
ghost use Rattle.composition_state.specs.Registry.{with_windows, with_views, with_surfaces, with_shortcuts, with_traces, window_refusal, conflict_refusal, advanced, settled, answered_with, outcome_of};

use handles::GenerationalHandle;
use handles::arena::Arena;
use records::error::{CompositionError, Outcome};
use records::shortcut::Shortcuts;
use records::surface::SurfaceTable;
use records::trace::Traces;
use records::view::ViewTable;

#[repr(C)]
#[derive(Clone, Copy)]
pub struct CompositionLimits {
    pub max_windows: u64,
    pub max_views: u64,
    pub max_surfaces: u64,
    pub max_surfaces_per_view: u64,
    pub max_trace_entries: u64,
}

#[derive(Clone, Copy)]
pub struct CompositionRegistry {
    pub session: GenerationalHandle,
    pub session_epoch: u64,
    pub limits: CompositionLimits,
    pub first_generation: u32,
    pub revision: u64,
    pub windows: Arena,
    pub views: ViewTable,
    pub surfaces: SurfaceTable,
    pub shortcuts: Shortcuts,
    pub traces: Traces,
}

// The answer of a call: what it made where it is accepted, else the refusal, and the registry after it.
#[derive(Clone, Copy)]
pub struct Answered<T: Copy> {
    pub outcome: Result<T, CompositionError>,
    pub registry: CompositionRegistry,
}

// The answer of a call that makes nothing.
pub type Changed = Answered<()>;

impl<T: Copy> Answered<T> {
    // The answer of a change that made a value.
    pub fn with(value: T, changed: Changed) -> Self
        ensures { result ≡ answered_with value changed }
    {
        Answered {
            outcome: changed.outcome.and(Ok(value)),
            registry: changed.registry,
        }
    }

    // Whether it is accepted, or why it is refused, without the value.
    pub fn refusal(&self) -> Outcome
        ensures { result ≡ outcome_of self.now }
    {
        match self.outcome {
            Ok(_) => Ok(()),
            Err(error) => Err(error),
        }
    }
}

// What a handle that names no live window refuses.
pub fn window_refusal(windows: Arena, window: GenerationalHandle) -> Outcome
    ensures { result ≡ window_refusal windows window }
{
    records::error::refuse_status(
        handles::arena::lookup(windows, window),
        CompositionError::InvalidWindow,
        CompositionError::StaleWindow,
    )
}

pub fn expect_revision(revision: u64, expected: u64) -> Outcome
    ensures { result ≡ conflict_refusal revision expected }
{
    records::error::refuse_if(revision != expected, CompositionError::RevisionConflict)
}

impl CompositionRegistry {
    pub fn with_windows(self, windows: Arena) -> Self
        ensures { result ≡ with_windows windows self }
    {
        Self { windows, ..self }
    }

    pub fn with_views(self, views: ViewTable) -> Self
        ensures { result ≡ with_views views self }
    {
        Self { views, ..self }
    }

    pub fn with_surfaces(self, surfaces: SurfaceTable) -> Self
        ensures { result ≡ with_surfaces surfaces self }
    {
        Self { surfaces, ..self }
    }

    pub fn with_shortcuts(self, shortcuts: Shortcuts) -> Self
        ensures { result ≡ with_shortcuts shortcuts self }
    {
        Self { shortcuts, ..self }
    }

    pub fn with_traces(self, traces: Traces) -> Self
        ensures { result ≡ with_traces traces self }
    {
        Self { traces, ..self }
    }

    // The registry after a change: the revision rises by 1, or 21 follows where it cannot.
    #[tactic(auto, unfolding(crate::specs::Registry::advanced))]
    pub fn advance(self) -> Changed
        ensures { result ≡ advanced self }
    {
        match self.revision.checked_add(1) {
            Some(revision) => Changed {
                outcome: Ok(()),
                registry: Self { revision, ..self },
            },
            None => Changed {
                outcome: Err(CompositionError::RevisionExhausted),
                registry: self,
            },
        }
    }

    // The registry as it came where the call is refused, and else the changed one, its revision raised.
    pub fn settle(self, refusal: Outcome, changed: CompositionRegistry) -> Changed
        ensures { result ≡ settled refusal self changed }
    {
        match refusal {
            Ok(()) => changed.advance(),
            Err(error) => Changed {
                outcome: Err(error),
                registry: self,
            },
        }
    }
}
