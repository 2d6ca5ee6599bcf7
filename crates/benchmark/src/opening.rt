// The counter of a case: one window and one view with panels that fill it, then presses or captures.
use crate::events::pointer;
use composition_input::captures::capture_pointer_for;
use composition_panels::answer::Created;
use composition_panels::panels::attach_surface;
use composition_panels::views::create_view;
use composition_panels::windows::create_window;
use composition_state::registry::{CompositionLimits, CompositionRegistry};
use geometry::surface::SurfaceGeometry;
use handles::GenerationalHandle;
use input_events::event::PointerPhase;
use input_route::route::route;
use input_router::router::PlatformInputRouter;
use maps::keys::CompositionPointerId;
use records::surface::{SurfaceDescriptor, SurfaceInputPolicy, SurfaceKind};

// What the events name.
#[derive(Clone, Copy)]
pub struct Places {
    pub window: GenerationalHandle,
    pub view: GenerationalHandle,
}

#[derive(Clone, Copy)]
pub struct Opened {
    pub places: Places,
    pub registry: CompositionRegistry,
    pub router: PlatformInputRouter,
}

// Every later call refuses the handle of a call that was refused.
pub fn issued(created: Created) -> GenerationalHandle {
    created.outcome.unwrap_or(GenerationalHandle::INVALID)
}

fn limits() -> CompositionLimits {
    CompositionLimits {
        max_windows: 8,
        max_views: 16,
        max_surfaces: 64,
        max_surfaces_per_view: 16,
        max_trace_entries: 32,
    }
}

// The lowest panel takes what reaches it; of those above it every second observes and the others pass on.
fn layer_policy(layer: u64) -> SurfaceInputPolicy {
    match layer {
        0 => SurfaceInputPolicy::Interactive,
        _ if layer % 2 == 0 => SurfaceInputPolicy::Passthrough,
        _ => SurfaceInputPolicy::Observe,
    }
}

// A panel with no bounds, which fills its view, with the identity matrix and open to hit tests.
pub fn panel(view: GenerationalHandle, input: SurfaceInputPolicy) -> SurfaceDescriptor {
    let geometry = SurfaceGeometry::default();
    SurfaceDescriptor {
        view,
        kind: SurfaceKind::Ui,
        z_order: 0,
        input,
        accepts_text: false,
        geometry,
    }
}

fn with_panels(
    opened: CompositionRegistry,
    view: GenerationalHandle,
    panels: u64,
) -> CompositionRegistry {
    let mut registry = opened;
    for layer in 0..panels {
        registry = attach_surface(registry, panel(view, layer_policy(layer))).registry;
    }
    registry
}

pub fn open(panels: u64) -> Opened {
    let session = GenerationalHandle {
        index: 0,
        generation: 1,
    };
    let start = CompositionRegistry::new(session, 1, limits());
    let first = create_window(start.registry);
    let window = issued(first);
    let second = create_view(first.registry, window);
    let view = issued(second);
    Opened {
        places: Places { window, view },
        registry: with_panels(second.registry, view, panels),
        router: PlatformInputRouter::new(128).router,
    }
}

// 128 contacts pressed.
pub fn with_presses(opened: Opened) -> Opened {
    let Opened {
        places,
        mut registry,
        mut router,
    } = opened;
    for contact in 0..128u32 {
        let event = pointer(places, contact as u64 + 1, contact, PointerPhase::Down);
        let routed = route(registry, router, event);
        registry = routed.registry;
        router = routed.router;
    }
    Opened {
        places,
        registry,
        router,
    }
}

// 32 contacts captured by one panel.
fn captured(opened: CompositionRegistry, surface: GenerationalHandle) -> CompositionRegistry {
    let mut registry = opened;
    for contact in 0..32u32 {
        let pointer = CompositionPointerId {
            device: 7,
            device_generation: 1,
            contact,
        };
        registry = capture_pointer_for(registry, pointer, surface, registry.revision).registry;
    }
    registry
}

// One more view, with one panel and 32 captures.
fn with_captured_view(
    opened: CompositionRegistry,
    window: GenerationalHandle,
) -> CompositionRegistry {
    let viewed = create_view(opened, window);
    let shown = panel(issued(viewed), SurfaceInputPolicy::Interactive);
    let attached = attach_surface(viewed.registry, shown);
    captured(attached.registry, issued(attached))
}

// 512 captures: 32 in each of 16 views. The first panel of the first view has its part.
pub fn with_captures(opened: Opened) -> Opened {
    let first = GenerationalHandle {
        index: 0,
        generation: 1,
    };
    let mut registry = captured(opened.registry, first);
    for _ in 1..16 {
        registry = with_captured_view(registry, opened.places.window);
    }
    Opened { registry, ..opened }
}
