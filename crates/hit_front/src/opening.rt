// One window and one view with two panels that fill it, each made by a call.
use composition_panels::panels::attach_surface;
use composition_panels::views::create_view;
use composition_panels::windows::create_window;
use composition_state::registry::{CompositionLimits, CompositionRegistry};
use geometry::surface::SurfaceGeometry;
use handles::GenerationalHandle;
use records::surface::{SurfaceDescriptor, SurfaceInputPolicy, SurfaceKind};

// The handle of the first window, and of the first view.
pub fn first() -> GenerationalHandle {
    GenerationalHandle {
        index: 0,
        generation: 1,
    }
}

fn limits() -> CompositionLimits {
    CompositionLimits {
        max_windows: 1,
        max_views: 1,
        max_surfaces: 2,
        max_surfaces_per_view: 2,
        max_trace_entries: 1,
    }
}

// A panel with no bounds, open to hit tests.
fn panel() -> SurfaceDescriptor {
    let geometry = SurfaceGeometry::default();
    SurfaceDescriptor {
        view: first(),
        kind: SurfaceKind::Ui,
        z_order: 0,
        input: SurfaceInputPolicy::Interactive,
        accepts_text: false,
        geometry,
    }
}

pub fn open() -> CompositionRegistry {
    let started = CompositionRegistry::new(first(), 1, limits()).registry;
    let windowed = create_window(started).registry;
    let viewed = create_view(windowed, first()).registry;
    let once = attach_surface(viewed, panel()).registry;
    attach_surface(once, panel()).registry
}
