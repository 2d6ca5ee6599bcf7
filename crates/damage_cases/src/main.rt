// Hands in registries and routers that are damaged in each way of the list in RULES.md, Damage, and odd ones that are
// not on it, and writes each answer.

#![tactic(auto)]

mod arenas;
mod odd;
mod reads;
mod routers;
mod views;

use composition_state::registry::{CompositionLimits, CompositionRegistry};
use geometry::surface::SurfaceGeometry;
use handles::GenerationalHandle;
use maps::keys::CompositionPointerId;
use records::error::Outcome;
use records::surface::{SurfaceDescriptor, SurfaceInputPolicy, SurfaceKind};
use std::io;

// A name, a space, a number and a line feed.
pub fn show(rt: &impl Print, name: &[u8], n: u64) -> io::Result<()> {
    let mut line = [0u8; 80];
    let named = answer_text::put::put_bytes(&mut line, 0, name);
    let spaced = answer_text::put::put_byte(&mut line, named, b' ');
    let numbered = answer_text::put::put_u64(&mut line, spaced, n);
    let ended = answer_text::put::put_byte(&mut line, numbered, b'\n');
    write_front(rt, &line, ended)
}

// A name and the number of an answer.
pub fn report(rt: &impl Print, name: &[u8], outcome: Outcome) -> io::Result<()> {
    show(rt, name, records::error::number(outcome))
}

// Writes the first `len` bytes of a line.
pub fn write_front(rt: &impl Print, line: &[u8], len: usize) -> io::Result<()> {
    if len <= line.len() {
        return rt.write_all(&line[..len]);
    }
    Ok(())
}

// A call that every sound registry with a place left accepts.
pub fn ask(rt: &impl Print, name: &[u8], registry: CompositionRegistry) -> io::Result<()> {
    let answered = composition_panels::windows::create_window(registry);
    report(rt, name, answered.outcome.map(|_| ()))
}

pub fn first(index: u32) -> GenerationalHandle {
    GenerationalHandle {
        index,
        generation: 1,
    }
}

fn attached(registry: CompositionRegistry, view: u32, z_order: i32) -> CompositionRegistry {
    let descriptor = SurfaceDescriptor {
        view: first(view),
        kind: SurfaceKind::Ui,
        z_order,
        input: SurfaceInputPolicy::Interactive,
        accepts_text: true,
        geometry: SurfaceGeometry::default(),
    };
    let answered = composition_panels::panels::attach_surface(registry, descriptor);
    answered.registry
}

// Window 0 is live and 1 closed; views 0 and 2 are live and 1 closed; panels 0 and 1 stand in view 0, panel 2 in view
// 2; panel 1 has two captures.
fn base() -> CompositionRegistry {
    let limits = CompositionLimits {
        max_windows: 4,
        max_views: 4,
        max_surfaces: 8,
        max_surfaces_per_view: 4,
        max_trace_entries: 8,
    };
    let started = CompositionRegistry::new(first(0), 1, limits);
    captured(three_panels(three_views(two_windows(started.registry))))
}

fn with_window(registry: CompositionRegistry) -> CompositionRegistry {
    let created = composition_panels::windows::create_window(registry);
    created.registry
}

fn two_windows(registry: CompositionRegistry) -> CompositionRegistry {
    let two = with_window(with_window(registry));
    let closed = composition_panels::windows::close_window(two, first(1));
    closed.registry
}

fn with_view(registry: CompositionRegistry) -> CompositionRegistry {
    let created = composition_panels::views::create_view(registry, first(0));
    created.registry
}

fn three_views(registry: CompositionRegistry) -> CompositionRegistry {
    let three = with_view(with_view(with_view(registry)));
    let closed = composition_panels::views::close_view(three, first(1));
    closed.registry
}

fn three_panels(registry: CompositionRegistry) -> CompositionRegistry {
    attached(attached(attached(registry, 0, 0), 0, 1), 2, 0)
}

fn capture_of(registry: CompositionRegistry, pointer: CompositionPointerId) -> CompositionRegistry {
    let captured = composition_input::captures::capture_pointer_for(
        registry,
        pointer,
        first(1),
        registry.revision,
    );
    captured.registry
}

fn captured(registry: CompositionRegistry) -> CompositionRegistry {
    let pointer = CompositionPointerId {
        device: 7,
        device_generation: 1,
        contact: 9,
    };
    capture_of(capture_of(registry, CompositionPointerId::PRIMARY), pointer)
}

fn main(rt: HostRuntime) -> io::Result<()> {
    let registry = base();
    ask(&rt, b"sound", registry)?;
    arenas::ask_all(&rt, registry)?;
    views::ask_all(&rt, registry)?;
    odd::ask_all(&rt, registry)?;
    routers::ask_all(&rt, registry)?;
    reads::ask_all(&rt, registry)
}
