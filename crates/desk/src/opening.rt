// The desk as it opens: one window, one view and the three panels, each made by a call and named by the handle that the
// call answers.
ghost use Rattle.std.specs.Prelude.{◌≡◌};
ghost use Rattle.desk.specs.Opening.{no_lists, start_counter, handle_from, created_by, attached, revision_shown, metrics_revision, view_opened, panels_opened, opened};

use calls::call::{Call, Lists, PanelCall, ReadCall};
use calls::shown::Shown;
use composition_shortcuts::register::Registrations;
use composition_state::registry::{CompositionLimits, CompositionRegistry};
use counter::answer::Answer;
use counter::step::{Counter, step};
use geometry::surface::SurfaceGeometry;
use handles::GenerationalHandle;
use input_router::router::PlatformInputRouter;
use records::surface::{SurfaceDescriptor, SurfaceInputPolicy, SurfaceKind};
use records::trace::Hits;

// What the steps name: the window and the view of an event, the revision of the view's metrics, and the panel that is
// closed.
#[derive(Clone, Copy)]
pub struct Places {
    pub window: GenerationalHandle,
    pub view: GenerationalHandle,
    pub metrics_revision: u64,
    pub pay_sheet: GenerationalHandle,
}

#[derive(Clone, Copy)]
pub struct Opened {
    pub places: Places,
    pub counter: Counter,
}

// The window and the view, and the counter that has no panel yet.
#[derive(Clone, Copy)]
struct Viewed {
    window: GenerationalHandle,
    view: GenerationalHandle,
    counter: Counter,
}

// What a call has made, and the counter after it.
#[derive(Clone, Copy)]
struct Created {
    handle: GenerationalHandle,
    counter: Counter,
}

// No call of this session hands in hits or registrations.
#[tactic(auto, unfolding(crate::specs::Opening::no_lists))]
pub fn no_lists() -> Lists
    ensures { result ≡ no_lists }
{
    Lists {
        hits: Hits::new(),
        registrations: Registrations::new(),
    }
}

// A counter with nothing in it: session 0.1 of epoch 1, at the port's limits.
fn start() -> Counter
    ensures { result ≡ start_counter }
{
    let session = GenerationalHandle {
        index: 0,
        generation: 1,
    };
    let limits = CompositionLimits {
        max_windows: 8,
        max_views: 16,
        max_surfaces: 64,
        max_surfaces_per_view: 16,
        max_trace_entries: 32,
    };
    Counter {
        registry: CompositionRegistry::new(session, 1, limits).registry,
        router: PlatformInputRouter::new(128).router,
    }
}

// A refused call has made nothing: every later call then refuses the handle of no slot.
fn handle_from(answer: Answer) -> GenerationalHandle
    ensures { result ≡ handle_from answer.handle }
{
    answer.handle.unwrap_or(GenerationalHandle::INVALID)
}

fn create(counter: Counter, call: PanelCall) -> Created
    ensures { result ≡ created_by counter call }
{
    let done = step(counter, Call::Panel(call), no_lists());
    Created {
        handle: handle_from(done.answer),
        counter: done.counter,
    }
}

// Attaches a panel with no bounds, which fills its view, with the identity matrix and open to hit tests.
fn attach(
    counter: Counter,
    view: GenerationalHandle,
    z_order: i32,
    input: SurfaceInputPolicy,
) -> Created
    ensures { result ≡ attached counter view z_order input }
{
    let descriptor = SurfaceDescriptor {
        view,
        kind: SurfaceKind::Ui,
        z_order,
        input,
        accepts_text: false,
        geometry: SurfaceGeometry::default(),
    };
    create(counter, PanelCall::AttachSurface(descriptor))
}

fn revision_shown(answer: Answer) -> u64
    ensures { result ≡ revision_shown answer.shown }
{
    if let Shown::Metrics(metrics) = answer.shown {
        return metrics.revision;
    }
    0
}

// An event names the revision of the metrics that it was measured by.
fn metrics_revision(counter: Counter, view: GenerationalHandle) -> u64
    ensures { result ≡ metrics_revision counter view }
{
    let done = step(counter, Call::Read(ReadCall::ViewMetrics(view)), no_lists());
    revision_shown(done.answer)
}

fn open_view(counter: Counter) -> Viewed
    ensures { result ≡ view_opened counter }
{
    let window = create(counter, PanelCall::CreateWindow);
    let view = create(window.counter, PanelCall::CreateView(window.handle));
    Viewed {
        window: window.handle,
        view: view.handle,
        counter: view.counter,
    }
}

fn open_panels(viewed: Viewed) -> Opened
    ensures { result ≡ panels_opened viewed }
{
    let view = viewed.view;
    let seat_map = attach(viewed.counter, view, 0, SurfaceInputPolicy::Interactive);
    let hold_bar = attach(seat_map.counter, view, 1, SurfaceInputPolicy::Observe);
    let pay_sheet = attach(hold_bar.counter, view, 2, SurfaceInputPolicy::Exclusive);
    Opened {
        places: Places {
            window: viewed.window,
            view,
            metrics_revision: metrics_revision(pay_sheet.counter, view),
            pay_sheet: pay_sheet.handle,
        },
        counter: pay_sheet.counter,
    }
}

pub fn open_desk() -> Opened
    ensures { result ≡ opened }
{
    open_panels(open_view(start()))
}
