// The groups of numbers of the format: handles, pointers, rectangles, metrics, input states, descriptors.
ghost use Rattle.std.specs.Prelude.{[], ◌∷◌};
ghost use Rattle.answer_numbers.specs.Numbers.{plain};
ghost use Rattle.answer_numbers.specs.Groups.{handle_numbers, optional_numbers, pointer_numbers, capture_numbers, rect_numbers, visibility_number, kind_number, policy_number, insets_numbers, metrics_numbers, input_state_numbers, transform_numbers, geometry_numbers, descriptor_numbers, local_numbers};

use crate::numbered::Numbered;
use crate::writer::Writer;
use geometry::metrics::{ViewInsets, ViewMetrics, ViewVisibility};
use geometry::rect::SurfaceRect;
use geometry::surface::SurfaceGeometry;
use geometry::transform::{Point, SurfaceTransform};
use handles::GenerationalHandle;
use maps::captures::Capture;
use maps::keys::CompositionPointerId;
use records::surface::{SurfaceDescriptor, SurfaceInputPolicy, SurfaceKind};
use records::view::ViewInputState;

// H: index, generation.
impl Numbered for GenerationalHandle {
    ghost numbers = { handle_numbers };

    fn write(&self, to: &mut Writer<'_>) {
        self.index.write(to);
        self.generation.write(to);
    }
}

// O: a flag, then the handle or zeros.
impl Numbered for Option<GenerationalHandle> {
    ghost numbers = { optional_numbers };

    fn write(&self, to: &mut Writer<'_>) {
        match self {
            None => {
                to.plain(0);
                to.plain(0);
                to.plain(0);
            }
            Some(handle) => {
                to.plain(1);
                handle.write(to);
            }
        }
    }
}

// K: device, device generation, contact.
impl Numbered for CompositionPointerId {
    ghost numbers = { pointer_numbers };

    fn write(&self, to: &mut Writer<'_>) {
        self.device.write(to);
        self.device_generation.write(to);
        self.contact.write(to);
    }
}

// K, H.
impl Numbered for Capture {
    ghost numbers = { capture_numbers };

    fn write(&self, to: &mut Writer<'_>) {
        self.pointer.write(to);
        self.surface.write(to);
    }
}

// R: a flag, then the rectangle or zeros.
impl Numbered for Option<SurfaceRect> {
    ghost numbers = { rect_numbers };

    fn write(&self, to: &mut Writer<'_>) {
        match self {
            None => {
                to.plain(0);
                to.plain(0);
                to.plain(0);
                to.plain(0);
                to.plain(0);
            }
            Some(rect) => {
                to.plain(1);
                rect.x_milli.write(to);
                rect.y_milli.write(to);
                rect.width_milli.write(to);
                rect.height_milli.write(to);
            }
        }
    }
}

impl Numbered for ViewVisibility {
    ghost numbers = { λ v. plain (visibility_number v) ∷ [] };

    fn write(&self, to: &mut Writer<'_>) {
        to.plain(*self as u64);
    }
}

impl Numbered for ViewInsets {
    ghost numbers = { insets_numbers };

    fn write(&self, to: &mut Writer<'_>) {
        self.top_milli.write(to);
        self.right_milli.write(to);
        self.bottom_milli.write(to);
        self.left_milli.write(to);
    }
}

// M: the 13 numbers of a view's metrics.
impl Numbered for ViewMetrics {
    ghost numbers = { metrics_numbers };

    fn write(&self, to: &mut Writer<'_>) {
        self.revision.write(to);
        self.origin_x_milli.write(to);
        self.origin_y_milli.write(to);
        self.width_milli.write(to);
        self.height_milli.write(to);
        self.framebuffer_width.write(to);
        self.framebuffer_height.write(to);
        self.scale_q16.write(to);
        self.safe_area.write(to);
        self.visibility.write(to);
    }
}

// I: focus, single capture field, composition.
impl Numbered for ViewInputState {
    ghost numbers = { input_state_numbers };

    fn write(&self, to: &mut Writer<'_>) {
        self.focused.write(to);
        self.pointer_capture.write(to);
        self.ime.write(to);
    }
}

impl Numbered for SurfaceTransform {
    ghost numbers = { transform_numbers };

    fn write(&self, to: &mut Writer<'_>) {
        self.m11_q16.write(to);
        self.m12_q16.write(to);
        self.m21_q16.write(to);
        self.m22_q16.write(to);
        self.translate_x_milli.write(to);
        self.translate_y_milli.write(to);
    }
}

// G: the 18 numbers of a panel's geometry.
impl Numbered for SurfaceGeometry {
    ghost numbers = { geometry_numbers };

    fn write(&self, to: &mut Writer<'_>) {
        self.bounds.write(to);
        self.clip.write(to);
        self.transform.write(to);
        to.plain(self.opacity_q16 as u64);
        self.hit_test_enabled.write(to);
    }
}

impl Numbered for SurfaceKind {
    ghost numbers = { λ k. plain (kind_number k) ∷ [] };

    fn write(&self, to: &mut Writer<'_>) {
        to.plain(*self as u64);
    }
}

impl Numbered for SurfaceInputPolicy {
    ghost numbers = { λ p. plain (policy_number p) ∷ [] };

    fn write(&self, to: &mut Writer<'_>) {
        to.plain(*self as u64);
    }
}

// D: the 24 numbers of a panel's descriptor.
impl Numbered for SurfaceDescriptor {
    ghost numbers = { descriptor_numbers };

    fn write(&self, to: &mut Writer<'_>) {
        self.view.write(to);
        self.kind.write(to);
        self.z_order.write(to);
        self.input.write(to);
        self.accepts_text.write(to);
        self.geometry.write(to);
    }
}

// A point in a panel: a flag, then the point or zeros.
impl Numbered for Option<Point> {
    ghost numbers = { local_numbers };

    fn write(&self, to: &mut Writer<'_>) {
        match self {
            Some(point) => {
                to.plain(1);
                point.x_milli.write(to);
                point.y_milli.write(to);
            }
            None => {
                to.plain(0);
                to.plain(0);
                to.plain(0);
            }
        }
    }
}
