// What these calls answer beside the registry.
ghost use Rattle.std.specs.Prelude.{◌≡◌};
ghost use Rattle.composition_panels.specs.Windows.{exhausted_refusal};

use composition_state::registry::Answered;
use geometry::metrics::ViewMetrics;
use handles::GenerationalHandle;
use handles::arena::{ReleaseError, ReleaseOutcome};
use records::error::{CompositionError, Outcome};

// A creating call answers its handle.
pub type Created = Answered<GenerationalHandle>;

// A metrics update answers the new metrics.
pub type MetricsUpdated = Answered<ViewMetrics>;

// A slot at its last generation cannot be released.
pub fn refuse_exhausted(outcome: ReleaseOutcome) -> Outcome
    ensures { result ≡ exhausted_refusal outcome }
{
    match outcome {
        Err(ReleaseError::GenerationExhausted) => Err(CompositionError::GenerationExhausted),
        _ => Ok(()),
    }
}
