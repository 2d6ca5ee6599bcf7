// What `route` answers.
ghost use Rattle.std.specs.Prelude.{◌≡◌};
ghost use Rattle.input_releases.specs.Answers.{no_result, no_report, routed_outcome, report_of, refused_with};

use composition_arbitration::arbitrate::ArbitrationResult;
use composition_state::registry::CompositionRegistry;
use input_events::error::{PlatformInputError, RouterOutcome};
use input_router::router::PlatformInputRouter;
use records::trace::Deliveries;
use records::view::ViewInputState;
use release_lists::releases::Releases;

// What became of an event; of a refused one nothing did.
#[derive(Clone, Copy)]
pub enum RouteKind {
    Nothing,
    Disconnected,
    Arbitrated,
    ViewReleased,
}

// The Rust's report without its copy of the event. The arbitration stands if the event was arbitrated, and is blank
// else: in the answer of `step` an arbitration stands here with no kind, so it is no part of one.
#[derive(Clone, Copy)]
pub struct PlatformInputRoutingReport {
    pub kind: RouteKind,
    pub arbitration: ArbitrationResult,
    pub synthesized_releases: Releases,
    pub view_release: Option<ViewInputState>,
    pub composition_revision: u64,
}

#[derive(Clone, Copy)]
pub struct Routed {
    pub outcome: Result<PlatformInputRoutingReport, PlatformInputError>,
    pub registry: CompositionRegistry,
    pub router: PlatformInputRouter,
}

impl Routed {
    // Whether it is accepted, or why it is refused, without the report.
    pub fn refusal(&self) -> RouterOutcome
        ensures { result ≡ routed_outcome self.now }
    {
        match self.outcome {
            Ok(_) => Ok(()),
            Err(error) => Err(error),
        }
    }

    // Its report: a blank one where it is refused.
    pub fn report(&self) -> PlatformInputRoutingReport
        ensures { result ≡ report_of self.now }
    {
        match self.outcome {
            Ok(report) => report,
            Err(_) => no_report(),
        }
    }
}

pub fn no_result() -> ArbitrationResult
    ensures { result ≡ no_result }
{
    ArbitrationResult {
        revision: 0,
        deliveries: Deliveries::new(),
        consumed_by: None,
    }
}

pub fn no_report() -> PlatformInputRoutingReport
    ensures { result ≡ no_report }
{
    PlatformInputRoutingReport {
        kind: RouteKind::Nothing,
        arbitration: no_result(),
        synthesized_releases: Releases::new(),
        view_release: None,
        composition_revision: 0,
    }
}

// A refusal lists nothing; what it has written stands in the two states.
pub fn refused(
    error: PlatformInputError,
    registry: CompositionRegistry,
    router: PlatformInputRouter,
) -> Routed
    ensures { result ≡ refused_with error registry router }
{
    Routed {
        outcome: Err(error),
        registry,
        router,
    }
}
