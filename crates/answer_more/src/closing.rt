// What a panel's close and a shutdown show.
ghost use Rattle.std.specs.Prelude.{ℕ, List, ◌≡◌};
ghost use Rattle.answer_numbers.specs.Writers.{placed, written};
ghost use Rattle.answer_more.specs.Closing.{release_number, releases_numbers, close_numbers, report_numbers, reports_numbers, shutdown_numbers, closing_numbers};

use answer_numbers::numbered::{Numbered, put_numbers};
use answer_numbers::sink::SinkKind;
use answer_numbers::writer::Writer;
use calls::call::CloseCall;
use composition_close::answer::{
    CloseReports, CompositionShutdownReport, SurfaceCloseReport, SurfaceRelease, SurfaceReleases,
};

fn release_number(release: SurfaceRelease) -> u64
    ensures { result ≡ release_number release }
{
    release as u64
}

fn write_releases(list: &SurfaceReleases, to: &mut Writer<'_>)
    ensures { to.new ≡ written (releases_numbers list.now) to.old }
{
    let entries = list.entries();
    entries.len().write(to);
    for entry in entries {
        to.plain(release_number(*entry));
    }
}

// C: the releases of a closed panel, and the restored focus.
fn write_closed(report: &SurfaceCloseReport, to: &mut Writer<'_>)
    ensures { to.new ≡ written (close_numbers report.now) to.old }
{
    write_releases(&report.releases, to);
    report.restored_focus.write(to);
}

// A closed panel of a shutdown: its handle, C, and the revision after it.
fn write_report(report: &SurfaceCloseReport, to: &mut Writer<'_>)
    ensures { to.new ≡ written (report_numbers report.now) to.old }
{
    report.surface.write(to);
    write_closed(report, to);
    report.revision.write(to);
}

fn write_reports(list: &CloseReports, to: &mut Writer<'_>)
    ensures { to.new ≡ written (reports_numbers list.now) to.old }
{
    let reports = list.entries();
    reports.len().write(to);
    for report in reports {
        write_report(report, to);
    }
}

// What a panel's close shows.
#[derive(Clone, Copy)]
struct Closed<'a>(&'a SurfaceCloseReport);

impl Numbered for Closed<'_> {
    ghost numbers = { λ c. close_numbers c.0.now };

    fn write(&self, to: &mut Writer<'_>) {
        write_closed(self.0, to);
    }
}

// What a shutdown shows.
#[derive(Clone, Copy)]
struct Down<'a>(&'a CompositionShutdownReport);

// The closed panels, then the views, then the windows.
impl Numbered for Down<'_> {
    ghost numbers = { λ d. shutdown_numbers d.0.now };

    fn write(&self, to: &mut Writer<'_>) {
        let report = self.0;
        write_reports(&report.closed_surfaces, to);
        report.closed_views.write(to);
        report.closed_windows.write(to);
    }
}

pub fn put_closing(
    out: &mut [u8],
    at: usize,
    kind: SinkKind,
    call: CloseCall,
    closed: &SurfaceCloseReport,
    shutdown: &CompositionShutdownReport,
) -> usize
    ensures { ◌≡◌ {A = List ℕ × ℕ} (out.new, result)
        (placed kind (closing_numbers call closed.now shutdown.now) (out.old, at)) }
{
    match call {
        CloseCall::CloseSurface(_) => put_numbers(out, at, kind, &Closed(closed)),
        CloseCall::Shutdown => put_numbers(out, at, kind, &Down(shutdown)),
    }
}
