// Counts, generations, live counts and free lists of the three slot tables; limits, first generation, registrations and
// traces. Each kind of damage is made in a part, and one function puts that part into the registry.
use composition_state::registry::{CompositionLimits, CompositionRegistry};
use handles::arena::{Arena, Slot};
use records::trace::Traces;
use std::io;

fn with_counts(a: Arena, used: usize, freed: usize, live: usize) -> Arena {
    let mut next = a;
    next.used = used;
    next.freed = freed;
    next.live = live;
    next
}

fn with_first_slot(a: Arena, generation: u32, filled: bool) -> Arena {
    let mut next = a;
    next.slots[0] = Slot { generation, filled };
    next
}

fn with_free(a: Arena, first: u32, second: u32, freed: usize) -> Arena {
    let mut next = a;
    next.free[0] = first;
    next.free[1] = second;
    next.freed = freed;
    next
}

fn ask_windows(
    rt: &impl Print,
    name: &[u8],
    mut registry: CompositionRegistry,
    arena: Arena,
) -> io::Result<()> {
    registry.windows = arena;
    crate::ask(rt, name, registry)
}

fn ask_views(
    rt: &impl Print,
    name: &[u8],
    mut registry: CompositionRegistry,
    arena: Arena,
) -> io::Result<()> {
    registry.views = registry.views.with_arena(arena);
    crate::ask(rt, name, registry)
}

fn ask_panels(
    rt: &impl Print,
    name: &[u8],
    mut registry: CompositionRegistry,
    arena: Arena,
) -> io::Result<()> {
    registry.surfaces = registry.surfaces.with_arena(arena);
    crate::ask(rt, name, registry)
}

fn ask_window_counts(rt: &impl Print, registry: CompositionRegistry) -> io::Result<()> {
    let a = registry.windows;
    ask_windows(
        rt,
        b"windows: a count over the table",
        registry,
        with_counts(a, 65, 1, 1),
    )?;
    ask_windows(
        rt,
        b"windows: a count over the limit",
        registry,
        with_counts(a, 5, 1, 1),
    )?;
    ask_windows(
        rt,
        b"windows: generation 0",
        registry,
        with_first_slot(a, 0, true),
    )?;
    ask_windows(
        rt,
        b"windows: live count",
        registry,
        with_counts(a, 2, 1, 2),
    )
}

fn ask_window_slots(rt: &impl Print, registry: CompositionRegistry) -> io::Result<()> {
    let a = registry.windows;
    ask_windows(
        rt,
        b"windows: an empty slot not free",
        registry,
        with_counts(a, 2, 0, 1),
    )?;
    ask_windows(
        rt,
        b"windows: a filled slot free",
        registry,
        with_free(a, 0, 0, 1),
    )?;
    ask_windows(
        rt,
        b"windows: an empty slot free twice",
        registry,
        with_free(a, 1, 1, 2),
    )?;
    ask_windows(
        rt,
        b"windows: an unused slot free",
        registry,
        with_free(a, 1, 2, 2),
    )
}

fn ask_view_slots(rt: &impl Print, registry: CompositionRegistry) -> io::Result<()> {
    let a = registry.views.arena;
    ask_views(
        rt,
        b"views: a count over the limit",
        registry,
        with_counts(a, 5, 1, 2),
    )?;
    ask_views(
        rt,
        b"views: generation 0",
        registry,
        with_first_slot(a, 0, true),
    )?;
    ask_views(rt, b"views: live count", registry, with_counts(a, 3, 1, 3))?;
    ask_views(
        rt,
        b"views: an empty slot not free",
        registry,
        with_counts(a, 3, 0, 2),
    )
}

fn ask_panel_slots(rt: &impl Print, registry: CompositionRegistry) -> io::Result<()> {
    let a = registry.surfaces.arena;
    ask_panels(
        rt,
        b"panels: a count over the limit",
        registry,
        with_counts(a, 9, 0, 3),
    )?;
    ask_panels(
        rt,
        b"panels: generation 0",
        registry,
        with_first_slot(a, 0, true),
    )?;
    ask_panels(rt, b"panels: live count", registry, with_counts(a, 3, 0, 2))?;
    ask_panels(
        rt,
        b"panels: a filled slot free",
        registry,
        with_free(a, 0, 0, 1),
    )
}

fn ask_limits(
    rt: &impl Print,
    name: &[u8],
    mut registry: CompositionRegistry,
    windows: u64,
    generation: u32,
) -> io::Result<()> {
    let limits = CompositionLimits {
        max_windows: windows,
        max_views: 4,
        max_surfaces: 8,
        max_surfaces_per_view: 4,
        max_trace_entries: 8,
    };
    registry.limits = limits;
    registry.first_generation = generation;
    crate::ask(rt, name, registry)
}

fn ask_registrations(
    rt: &impl Print,
    name: &[u8],
    mut registry: CompositionRegistry,
    len: usize,
) -> io::Result<()> {
    registry.shortcuts.len = len;
    crate::ask(rt, name, registry)
}

// The first trace with other counts, among so many.
fn with_trace(traces: Traces, len: usize, hits: usize, deliveries: usize) -> Traces {
    let mut next = traces;
    let mut trace = next.items[0];
    trace.hits.len = hits;
    trace.deliveries.len = deliveries;
    next.items[0] = trace;
    next.len = len;
    next
}

fn ask_traces(
    rt: &impl Print,
    name: &[u8],
    mut registry: CompositionRegistry,
    len: usize,
    hits: usize,
    deliveries: usize,
) -> io::Result<()> {
    registry.traces = with_trace(registry.traces, len, hits, deliveries);
    crate::ask(rt, name, registry)
}

pub fn ask_all(rt: &impl Print, registry: CompositionRegistry) -> io::Result<()> {
    ask_window_counts(rt, registry)?;
    ask_window_slots(rt, registry)?;
    ask_view_slots(rt, registry)?;
    ask_panel_slots(rt, registry)?;
    ask_limits(rt, b"limits: 0", registry, 0, 1)?;
    ask_limits(rt, b"limits: over the port's", registry, 9, 1)?;
    ask_limits(rt, b"limits: first generation 0", registry, 4, 0)?;
    ask_registrations(rt, b"registrations: a count over the table", registry, 257)?;
    ask_traces(rt, b"traces: a count over the limit", registry, 9, 0, 0)?;
    ask_traces(rt, b"traces: hits over the table", registry, 1, 17, 0)?;
    ask_traces(rt, b"traces: deliveries over the table", registry, 1, 0, 17)
}
