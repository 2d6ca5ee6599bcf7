// Registries that no list of calls leaves, but that are not damaged: each call answers as the Rust would.
use composition_state::registry::CompositionRegistry;
use handles::GenerationalHandle;
use handles::arena::Slot;
use records::layers::Layers;
use records::surface::{SurfaceDescriptor, SurfaceRecord};
use std::io;

// Panel 2 taken out of its view's layers.
fn outside_layers(mut registry: CompositionRegistry) -> CompositionRegistry {
    let record = registry.views.record(crate::first(2));
    let empty = record.with_surfaces(Layers::new());
    registry.views = registry.views.with_record(crate::first(2), empty);
    registry
}

fn owned_by(record: SurfaceRecord, view: GenerationalHandle) -> SurfaceRecord {
    SurfaceRecord {
        descriptor: SurfaceDescriptor {
            view,
            ..record.descriptor
        },
    }
}

// A registry whose panel 2, outside all layers, then names a view that is not live.
fn orphaned(mut outside: CompositionRegistry, view: GenerationalHandle) -> CompositionRegistry {
    let record = owned_by(outside.surfaces.record(crate::first(2)), view);
    outside.surfaces = outside.surfaces.with_record(crate::first(2), record);
    outside
}

fn ask_focus(
    rt: &impl Print,
    name: &[u8],
    registry: CompositionRegistry,
    view: GenerationalHandle,
) -> io::Result<()> {
    let surface = Some(crate::first(2));
    let answered = composition_input::focus::set_focus(registry, view, surface, registry.revision);
    crate::report(rt, name, answered.outcome)
}

fn ask_capture(rt: &impl Print, name: &[u8], registry: CompositionRegistry) -> io::Result<()> {
    let answered = composition_input::captures::capture_pointer(
        registry,
        crate::first(2),
        registry.revision,
    );
    crate::report(rt, name, answered.outcome)
}

// What stands in places that no count reaches is read by nobody.
fn ask_garbage(rt: &impl Print, mut registry: CompositionRegistry) -> io::Result<()> {
    registry.windows.slots[40] = Slot {
        generation: 0,
        filled: true,
    };
    registry.windows.free[40] = 99;
    crate::ask(rt, b"odd: garbage in unused places", registry)
}

fn ask_outside(rt: &impl Print, outside: CompositionRegistry) -> io::Result<()> {
    crate::ask(rt, b"odd: a panel outside the layers", outside)?;
    ask_focus(
        rt,
        b"odd: focus on a panel outside the layers",
        outside,
        crate::first(2),
    )
}

// A view that is closed, by another generation, and one that never was.
fn stale() -> GenerationalHandle {
    GenerationalHandle {
        index: 1,
        generation: 9,
    }
}

fn unknown() -> GenerationalHandle {
    crate::first(3)
}

fn ask_stale(rt: &impl Print, orphan: CompositionRegistry) -> io::Result<()> {
    ask_capture(rt, b"odd: capture by a panel of a stale view", orphan)?;
    ask_focus(
        rt,
        b"odd: focus in a stale view, its panel's own",
        orphan,
        stale(),
    )
}

fn ask_unknown(rt: &impl Print, orphan: CompositionRegistry) -> io::Result<()> {
    ask_capture(rt, b"odd: capture by a panel of an unknown view", orphan)
}

pub fn ask_all(rt: &impl Print, registry: CompositionRegistry) -> io::Result<()> {
    ask_garbage(rt, registry)?;
    ask_outside(rt, outside_layers(registry))?;
    ask_stale(rt, orphaned(outside_layers(registry), stale()))?;
    ask_unknown(rt, orphaned(outside_layers(registry), unknown()))?;
    ask_focus(rt, b"odd: focus in an unknown view", registry, unknown())
}
