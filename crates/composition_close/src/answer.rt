// What these calls answer beside the refusal and the registry.
#![tactic(auto, unfolding(lists::specs::Tables::packed))]

ghost use Rattle.std.specs.Prelude.{◌≡◌, cond};
ghost use Rattle.lists.specs.Tables.{packed, pushed_within};
ghost use Rattle.composition_close.specs.Reports.{releases, release_list, no_report, no_shutdown};
ghost use Rattle.composition_close.specs.declared.answer.SurfaceRelease.TheVariants.{Focus};

use composition_state::registry::Answered;
use handles::GenerationalHandle;
use handles::arena::Handles;
use lists::table::{Blank, Table};

#[derive(Clone, Copy)]
pub enum SurfaceRelease {
    Focus,
    PointerCapture,
    ImeComposition,
}

// What a closed panel had: its composition, its capture, its focus, in this order.
pub type SurfaceReleases = Table<SurfaceRelease, 3>;

#[derive(Clone, Copy)]
pub struct SurfaceCloseReport {
    pub surface: GenerationalHandle,
    pub releases: SurfaceReleases,
    pub restored_focus: Option<GenerationalHandle>,
    pub revision: u64,
}

// A close answers its report.
pub type SurfaceClosed = Answered<SurfaceCloseReport>;

// The reports of the panels that a shutdown closed: up to 16 in each of 16 views.
pub type CloseReports = Table<SurfaceCloseReport, 256>;

#[derive(Clone, Copy)]
pub struct CompositionShutdownReport {
    pub closed_surfaces: CloseReports,
    pub closed_views: Handles,
    pub closed_windows: Handles,
    pub final_revision: u64,
}

// A shutdown answers its report.
pub type Shutdown = Answered<CompositionShutdownReport>;

impl Blank for SurfaceRelease {
    ghost BLANK = { Focus };

    const BLANK: Self = SurfaceRelease::Focus;
}

impl Blank for SurfaceCloseReport {
    ghost BLANK = { no_report };

    const BLANK: Self = SurfaceCloseReport {
        surface: GenerationalHandle::ZERO,
        releases: Table {
            items: [SurfaceRelease::Focus; 3],
            len: 0,
        },
        restored_focus: None,
        revision: 0,
    };
}

// The list with a release at its end, if the panel had it.
fn push_if(list: SurfaceReleases, had: bool, release: SurfaceRelease) -> SurfaceReleases
    ensures { result ≡ cond had (pushed_within releases list release) list }
{
    if had { list.push_within(release) } else { list }
}

#[tactic(auto, unfolding(crate::specs::Detach::had_capture))]
pub fn releases_of(had_ime: bool, had_capture: bool, had_focus: bool) -> SurfaceReleases
    ensures { result ≡ packed releases (release_list had_ime had_capture had_focus) }
{
    let composed = push_if(
        SurfaceReleases::new(),
        had_ime,
        SurfaceRelease::ImeComposition,
    );
    let captured = push_if(composed, had_capture, SurfaceRelease::PointerCapture);
    push_if(captured, had_focus, SurfaceRelease::Focus)
}

impl SurfaceCloseReport {
    // The report of a close that is refused.
    pub fn blank() -> Self
        ensures { result ≡ no_report }
    {
        Self::BLANK
    }
}

impl CompositionShutdownReport {
    // The report of a shutdown that is refused.
    pub fn blank() -> Self
        ensures { result ≡ no_shutdown }
    {
        CompositionShutdownReport {
            closed_surfaces: CloseReports::new(),
            closed_views: Handles::new(),
            closed_windows: Handles::new(),
            final_revision: 0,
        }
    }
}
