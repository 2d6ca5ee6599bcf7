// What a call answers. One struct has the answers of every call, so that whoever reads one part of it needs no cases;
// what a call does not answer is blank.
ghost use Rattle.std.specs.Prelude.{◌≡◌};
ghost use Rattle.counter.specs.Answers.{nothing_listed, captures_listed, close_listed, shutdown_listed, arbitration_alone, releases_alone, shown_answer, listing_answer, report_answer};

use calls::shown::Shown;
use composition_arbitration::arbitrate::ArbitrationResult;
use composition_close::answer::{CompositionShutdownReport, SurfaceCloseReport};
use handles::GenerationalHandle;
use input_events::error::{RouterOutcome, from_composition};
use input_releases::answer::{PlatformInputRoutingReport, RouteKind, no_report, no_result};
use records::error::Outcome;
use release_lists::captures::CaptureList;
use release_lists::releases::Releases;

// What a release of a device's captures, a panel's close and a shutdown list.
#[derive(Clone, Copy)]
pub struct Listed {
    pub captures: CaptureList,
    pub closed: SurfaceCloseReport,
    pub shutdown: CompositionShutdownReport,
}

// `handle` is the one that a create or an attach made. `report` is that of a routed event; an arbitration and a router
// release answer their part of it.
#[derive(Clone, Copy)]
pub struct Answer {
    pub outcome: RouterOutcome,
    pub handle: Option<GenerationalHandle>,
    pub shown: Shown,
    pub report: PlatformInputRoutingReport,
    pub listed: Listed,
}

impl Listed {
    #[tactic(auto, unfolding(crate::specs::Answers::nothing_listed))]
    pub fn nothing() -> Self
        ensures { result ≡ nothing_listed }
    {
        Self {
            captures: CaptureList::new(),
            closed: SurfaceCloseReport::blank(),
            shutdown: CompositionShutdownReport::blank(),
        }
    }

    #[tactic(auto, unfolding(crate::specs::Answers::captures_listed, crate::specs::Answers::nothing_listed))]
    pub fn of_captures(captures: CaptureList) -> Self
        ensures { result ≡ captures_listed captures }
    {
        Self {
            captures,
            closed: SurfaceCloseReport::blank(),
            shutdown: CompositionShutdownReport::blank(),
        }
    }

    #[tactic(auto, unfolding(crate::specs::Answers::close_listed, crate::specs::Answers::nothing_listed))]
    pub fn of_close(closed: SurfaceCloseReport) -> Self
        ensures { result ≡ close_listed closed }
    {
        Self {
            captures: CaptureList::new(),
            closed,
            shutdown: CompositionShutdownReport::blank(),
        }
    }

    #[tactic(auto, unfolding(crate::specs::Answers::shutdown_listed, crate::specs::Answers::nothing_listed))]
    pub fn of_shutdown(shutdown: CompositionShutdownReport) -> Self
        ensures { result ≡ shutdown_listed shutdown }
    {
        Self {
            captures: CaptureList::new(),
            closed: SurfaceCloseReport::blank(),
            shutdown,
        }
    }
}

// The part of a report that an arbitration answers.
#[tactic(auto, unfolding(crate::specs::Answers::arbitration_alone))]
pub fn of_arbitration(arbitration: ArbitrationResult) -> PlatformInputRoutingReport
    ensures { result ≡ arbitration_alone arbitration }
{
    PlatformInputRoutingReport {
        kind: RouteKind::Nothing,
        arbitration,
        synthesized_releases: Releases::new(),
        view_release: None,
        composition_revision: 0,
    }
}

// The part of a report that a router release answers.
#[tactic(auto, unfolding(crate::specs::Answers::releases_alone))]
pub fn of_releases(synthesized_releases: Releases) -> PlatformInputRoutingReport
    ensures { result ≡ releases_alone synthesized_releases }
{
    PlatformInputRoutingReport {
        kind: RouteKind::Nothing,
        arbitration: no_result(),
        synthesized_releases,
        view_release: None,
        composition_revision: 0,
    }
}

impl Answer {
    // The answer of a call that lists nothing and has no report: one on the registry, or one that alters nothing.
    pub fn of_shown(refusal: Outcome, handle: Option<GenerationalHandle>, shown: Shown) -> Self
        ensures { result ≡ shown_answer refusal handle shown }
    {
        Self {
            outcome: from_composition(refusal),
            handle,
            shown,
            report: no_report(),
            listed: Listed::nothing(),
        }
    }

    // Of a release of a device's captures, a panel's close or a shutdown.
    pub fn of_listing(refusal: Outcome, listed: Listed) -> Self
        ensures { result ≡ listing_answer refusal listed }
    {
        Self {
            outcome: from_composition(refusal),
            handle: None,
            shown: Shown::Nothing,
            report: no_report(),
            listed,
        }
    }

    // Of an arbitration, a routed event or a router release.
    pub fn of_report(outcome: RouterOutcome, report: PlatformInputRoutingReport) -> Self
        ensures { result ≡ report_answer outcome report }
    {
        Self {
            outcome,
            handle: None,
            shown: Shown::Nothing,
            report,
            listed: Listed::nothing(),
        }
    }
}
