// Reads of damaged states: a call that reads is 42 where the state that it reads is damaged, and a function that reads
// a plain field answers the stored field.
use calls::arguments::InversePointArguments;
use calls::call::ReadCall;
use composition_state::registry::CompositionRegistry;
use geometry::transform::{Point, SurfaceTransform};
use input_router::router::PlatformInputRouter;
use std::io;

fn ask(
    rt: &impl Print,
    name: &[u8],
    registry: CompositionRegistry,
    router: PlatformInputRouter,
    call: ReadCall,
) -> io::Result<()> {
    let answered = read_step::steps::read_step(registry, router, call);
    crate::report(rt, name, answered.map(|_| ()))
}

// Live counts that are not the number of filled slots, a different one in each table.
fn miscounted(mut registry: CompositionRegistry) -> CompositionRegistry {
    registry.windows.live = 11;
    registry.views.arena.live = 12;
    registry.surfaces.arena.live = 13;
    registry
}

fn origin() -> InversePointArguments {
    let transform = SurfaceTransform::default();
    let point = Point {
        x_milli: 0,
        y_milli: 0,
    };
    InversePointArguments { transform, point }
}

// The plain fields of a damaged registry.
fn show_fields(rt: &impl Print, registry: CompositionRegistry) -> io::Result<()> {
    let session = composition_reads::session(registry);
    crate::show(rt, b"plain: session, index", session.index as u64)?;
    crate::show(rt, b"plain: session, generation", session.generation as u64)?;
    crate::show(
        rt,
        b"plain: epoch",
        composition_reads::session_epoch(registry),
    )?;
    crate::show(
        rt,
        b"plain: revision",
        composition_reads::revision(registry),
    )?;
    crate::show(
        rt,
        b"plain: live windows",
        composition_reads::live_window_count(registry) as u64,
    )?;
    crate::show(
        rt,
        b"plain: live views",
        composition_reads::live_view_count(registry) as u64,
    )?;
    crate::show(
        rt,
        b"plain: live panels",
        composition_reads::live_surface_count(registry) as u64,
    )
}

// Reads of a damaged registry beside a sound router.
fn ask_registry(
    rt: &impl Print,
    damaged: CompositionRegistry,
    router: PlatformInputRouter,
) -> io::Result<()> {
    ask(
        rt,
        b"reads: traces, the registry damaged",
        damaged,
        router,
        ReadCall::Traces,
    )?;
    ask(
        rt,
        b"reads: counts, the registry damaged",
        damaged,
        router,
        ReadCall::Counts,
    )?;
    ask(
        rt,
        b"reads: open presses, the registry damaged",
        damaged,
        router,
        ReadCall::ActiveBindingCount,
    )
}

// Reads of a damaged router beside a sound registry.
fn ask_router(
    rt: &impl Print,
    registry: CompositionRegistry,
    damaged: PlatformInputRouter,
) -> io::Result<()> {
    ask(
        rt,
        b"reads: traces, the router damaged",
        registry,
        damaged,
        ReadCall::Traces,
    )?;
    ask(
        rt,
        b"reads: counts, the router damaged",
        registry,
        damaged,
        ReadCall::Counts,
    )?;
    ask(
        rt,
        b"reads: open presses, the router damaged",
        registry,
        damaged,
        ReadCall::ActiveBindingCount,
    )
}

// A read of neither, where both are damaged.
fn ask_neither(
    rt: &impl Print,
    registry: CompositionRegistry,
    router: PlatformInputRouter,
) -> io::Result<()> {
    ask(
        rt,
        b"reads: an inverse point, both damaged",
        registry,
        router,
        ReadCall::InversePoint(origin()),
    )?;
    show_fields(rt, registry)?;
    crate::show(
        rt,
        b"plain: open presses of a damaged router",
        router.active_binding_count() as u64,
    )
}

pub fn ask_all(rt: &impl Print, registry: CompositionRegistry) -> io::Result<()> {
    ask_registry(rt, miscounted(registry), crate::routers::base())?;
    ask_router(rt, registry, crate::routers::with_falling_keys())?;
    ask_neither(
        rt,
        miscounted(registry),
        crate::routers::with_falling_keys(),
    )
}
