// `step`: any call of the port on any counter.
ghost use Rattle.std.specs.Prelude.{◌≡◌};
ghost use Rattle.composition_arbitration.specs.Arbitration.{arbitrated};
ghost use Rattle.std.specs.Result.{result_unwrap_or};
ghost use Rattle.composition_close.specs.Close.{closed_report};
ghost use Rattle.composition_close.specs.Shutdown.{shutdown_report};
ghost use Rattle.composition_input.specs.Captures.{listed_captures, release_device_pointer_captures};
ghost use Rattle.input_releases.specs.Answers.{no_result};
ghost use Rattle.read_step.specs.Reads.{read_step};
ghost use Rattle.registry_step.specs.Steps.{panel_step, input_step, shortcut_step};
ghost use Rattle.counter.specs.Step.{stepped_to, from_registry, from_captures, from_arbitrated, from_closed, from_shutdown, from_routed, from_released, from_read, close_step, router_step, stepped};

use crate::answer::{Answer, Listed, of_arbitration, of_releases};
use calls::arguments::{ArbitrateArguments, DeviceArguments};
use calls::call::{
    Call, CloseCall, InputCall, Lists, PanelCall, ReadCall, RouterCall, ShortcutCall,
};
use calls::shown::Shown;
use composition_arbitration::arbitrate::{Arbitrated, ArbitrationResult, arbitrate};
use composition_close::answer::{
    CompositionShutdownReport, Shutdown, SurfaceCloseReport, SurfaceClosed,
};
use composition_close::close::close_surface;
use composition_close::shutdown::shutdown;
use composition_input::answer::CapturesReleased;
use composition_input::captures::release_device_pointer_captures;
use composition_shortcuts::register::Registrations;
use composition_state::registry::CompositionRegistry;
use input_events::error::from_composition;
use input_releases::answer::{Routed, no_result};
use input_route::route::route;
use input_router::releases::Released;
use input_router::router::PlatformInputRouter;
use read_step::steps::read_step;
use records::error::CompositionError;
use records::trace::Hits;
use registry_step::steps::{RegistryStepped, input_step, panel_step, shortcut_step};
use release_lists::captures::CaptureList;

// The program's whole state.
#[derive(Clone, Copy)]
pub struct Counter {
    pub registry: CompositionRegistry,
    pub router: PlatformInputRouter,
}

#[derive(Clone, Copy)]
pub struct Stepped {
    pub answer: Answer,
    pub counter: Counter,
}

// The one function that makes a `Stepped` of its parts: each local of its size makes the check longer.
fn stepped_to(answer: Answer, registry: CompositionRegistry, router: PlatformInputRouter) -> Stepped
    ensures { result ≡ stepped_to answer registry router }
{
    Stepped {
        answer,
        counter: Counter { registry, router },
    }
}

#[tactic(auto, unfolding(crate::specs::Step::stepped))]
fn from_registry(stepped: RegistryStepped, router: PlatformInputRouter) -> Stepped
    ensures { result ≡ from_registry stepped router }
{
    stepped_to(
        Answer::of_shown(stepped.outcome, stepped.handle, stepped.shown),
        stepped.registry,
        router,
    )
}

// What is listed beside a refusal is blank, and is made only there.
fn listed_captures(released: &CapturesReleased) -> CaptureList
    ensures { result ≡ listed_captures released.now }
{
    match released.outcome {
        Ok(list) => list,
        Err(_) => CaptureList::new(),
    }
}

fn arbitration_of(arbitrated: &Arbitrated) -> ArbitrationResult
    ensures { result ≡ result_unwrap_or arbitrated.now.outcome no_result }
{
    match arbitrated.outcome {
        Ok(done) => done,
        Err(_) => no_result(),
    }
}

fn closed_report(closed: &SurfaceClosed) -> SurfaceCloseReport
    ensures { result ≡ closed_report closed.now }
{
    match closed.outcome {
        Ok(report) => report,
        Err(_) => SurfaceCloseReport::blank(),
    }
}

fn shutdown_report(done: &Shutdown) -> CompositionShutdownReport
    ensures { result ≡ shutdown_report done.now }
{
    match done.outcome {
        Ok(report) => report,
        Err(_) => CompositionShutdownReport::blank(),
    }
}

fn from_captures(released: CapturesReleased, router: PlatformInputRouter) -> Stepped
    ensures { result ≡ from_captures released router }
{
    stepped_to(
        Answer::of_listing(
            released.refusal(),
            Listed::of_captures(listed_captures(&released)),
        ),
        released.registry,
        router,
    )
}

fn from_arbitrated(arbitrated: Arbitrated, router: PlatformInputRouter) -> Stepped
    ensures { result ≡ from_arbitrated arbitrated router }
{
    stepped_to(
        Answer::of_report(
            from_composition(arbitrated.refusal()),
            of_arbitration(arbitration_of(&arbitrated)),
        ),
        arbitrated.registry,
        router,
    )
}

fn from_closed(closed: SurfaceClosed, router: PlatformInputRouter) -> Stepped
    ensures { result ≡ from_closed closed router }
{
    stepped_to(
        Answer::of_listing(closed.refusal(), Listed::of_close(closed_report(&closed))),
        closed.registry,
        router,
    )
}

fn from_shutdown(done: Shutdown, router: PlatformInputRouter) -> Stepped
    ensures { result ≡ from_shutdown done router }
{
    stepped_to(
        Answer::of_listing(done.refusal(), Listed::of_shutdown(shutdown_report(&done))),
        done.registry,
        router,
    )
}

fn from_routed(routed: Routed) -> Stepped
    ensures { result ≡ from_routed routed }
{
    stepped_to(
        Answer::of_report(routed.refusal(), routed.report()),
        routed.registry,
        routed.router,
    )
}

// A router release leaves the registry as it was.
fn from_released(registry: CompositionRegistry, released: Released) -> Stepped
    ensures { result ≡ from_released registry released }
{
    stepped_to(
        Answer::of_report(released.refusal(), of_releases(released.listed())),
        registry,
        released.router,
    )
}

// A call that alters nothing leaves the counter as it was.
fn from_read(counter: Counter, done: Result<Shown, CompositionError>) -> Stepped
    ensures { result ≡ from_read counter done }
{
    Stepped {
        answer: Answer::of_shown(done.and(Ok(())), None, done.unwrap_or(Shown::Nothing)),
        counter,
    }
}

#[inline(never)]
#[tactic(auto, unfolding(crate::specs::Step::close_step))]
fn close_step(counter: Counter, call: CloseCall) -> Stepped
    ensures { result ≡ close_step counter call }
{
    // Each arm returns: an answer in which arms join is written and copied once more.
    match call {
        CloseCall::CloseSurface(surface) => {
            return from_closed(close_surface(counter.registry, surface), counter.router);
        }
        CloseCall::Shutdown => {
            return from_shutdown(shutdown(counter.registry), counter.router);
        }
    }
}

// Also for a host that routes without the other calls.
#[inline(never)]
#[tactic(auto, unfolding(crate::specs::Step::router_step))]
pub fn router_step(counter: Counter, call: RouterCall) -> Stepped
    ensures { result ≡ router_step counter call }
{
    // Each arm returns, as in `close_step`.
    match call {
        RouterCall::Route(event) => {
            return from_routed(route(counter.registry, counter.router, event));
        }
        RouterCall::ReleaseSurface(surface) => {
            return from_released(counter.registry, counter.router.release_surface(surface));
        }
        RouterCall::ReleaseAll => {
            return from_released(counter.registry, counter.router.release_all());
        }
    }
}

#[inline(never)]
fn panel_call(counter: Counter, call: PanelCall) -> Stepped
    ensures { result ≡ from_registry (panel_step counter.registry call) counter.router }
{
    from_registry(panel_step(counter.registry, call), counter.router)
}

#[inline(never)]
fn input_call(counter: Counter, call: InputCall) -> Stepped
    ensures { result ≡ from_registry (input_step counter.registry call) counter.router }
{
    from_registry(input_step(counter.registry, call), counter.router)
}

#[inline(never)]
fn device_call(counter: Counter, given: DeviceArguments) -> Stepped
    ensures { result ≡ from_captures
        (release_device_pointer_captures counter.registry given.device given.device_generation)
        counter.router }
{
    from_captures(
        release_device_pointer_captures(counter.registry, given.device, given.device_generation),
        counter.router,
    )
}

#[inline(never)]
fn shortcut_call(counter: Counter, call: ShortcutCall, registrations: Registrations) -> Stepped
    ensures { result ≡ from_registry (shortcut_step counter.registry call registrations) counter.router }
{
    from_registry(
        shortcut_step(counter.registry, call, registrations),
        counter.router,
    )
}

#[inline(never)]
fn arbitrate_call(counter: Counter, given: ArbitrateArguments, hits: Hits) -> Stepped
    ensures { result ≡ from_arbitrated (arbitrated counter.registry given.view given.event hits)
        counter.router }
{
    from_arbitrated(
        arbitrate(counter.registry, given.view, given.event, hits),
        counter.router,
    )
}

#[inline(never)]
fn read_call(counter: Counter, call: ReadCall) -> Stepped
    ensures { result ≡ from_read counter (read_step counter.registry counter.router call) }
{
    from_read(counter, read_step(counter.registry, counter.router, call))
}

// Each group of calls has a function of its own, not inlined, so that their states do not stand on the stack together.
#[tactic(auto, unfolding(crate::specs::Step::stepped))]
pub fn step(counter: Counter, call: Call, lists: Lists) -> Stepped
    ensures { result ≡ stepped counter call lists }
{
    // Each arm returns, as in `close_step`.
    match call {
        Call::Panel(which) => {
            return panel_call(counter, which);
        }
        Call::Input(which) => {
            return input_call(counter, which);
        }
        Call::ReleaseDevice(given) => {
            return device_call(counter, given);
        }
        Call::Shortcut(which) => {
            return shortcut_call(counter, which, lists.registrations);
        }
        Call::Arbitrate(given) => {
            return arbitrate_call(counter, given, lists.hits);
        }
        Call::Close(which) => {
            return close_step(counter, which);
        }
        Call::Router(which) => {
            return router_step(counter, which);
        }
        Call::Read(which) => {
            return read_call(counter, which);
        }
    }
}
