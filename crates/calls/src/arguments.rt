// The arguments of the calls that take more than one. `revision` is the one that the caller expects.
use geometry::metrics::ViewMetricsUpdate;
use geometry::surface::SurfaceGeometry;
use geometry::transform::{Point, SurfaceTransform};
use handles::GenerationalHandle;
use maps::keys::CompositionPointerId;
use records::shortcut::SurfaceShortcutRegistration;
use records::surface::SurfaceInputPolicy;
use records::trace::ArbitrationEvent;

#[derive(Clone, Copy)]
pub struct MetricsArguments {
    pub view: GenerationalHandle,
    pub update: ViewMetricsUpdate,
    pub revision: u64,
}

#[derive(Clone, Copy)]
pub struct GeometryArguments {
    pub surface: GenerationalHandle,
    pub geometry: SurfaceGeometry,
    pub revision: u64,
}

#[derive(Clone, Copy)]
pub struct PolicyArguments {
    pub surface: GenerationalHandle,
    pub input: SurfaceInputPolicy,
    pub revision: u64,
}

#[derive(Clone, Copy)]
pub struct FocusArguments {
    pub view: GenerationalHandle,
    pub surface: Option<GenerationalHandle>,
    pub revision: u64,
}

// A view or a panel, and the expected revision.
#[derive(Clone, Copy)]
pub struct HandleArguments {
    pub handle: GenerationalHandle,
    pub revision: u64,
}

#[derive(Clone, Copy)]
pub struct PointerArguments {
    pub pointer: CompositionPointerId,
    pub surface: GenerationalHandle,
    pub revision: u64,
}

#[derive(Clone, Copy)]
pub struct DeviceArguments {
    pub device: u64,
    pub device_generation: u32,
}

#[derive(Clone, Copy)]
pub struct RegistrationArguments {
    pub surface: GenerationalHandle,
    pub registration: Option<SurfaceShortcutRegistration>,
    pub revision: u64,
}

#[derive(Clone, Copy)]
pub struct MaskArguments {
    pub surface: GenerationalHandle,
    pub class_mask: u64,
    pub revision: u64,
}

#[derive(Clone, Copy)]
pub struct ArbitrateArguments {
    pub view: GenerationalHandle,
    pub event: ArbitrationEvent,
}

// `length` is that of the lent buffer, in numbers.
#[derive(Clone, Copy)]
pub struct HitTestArguments {
    pub view: GenerationalHandle,
    pub point: Point,
    pub length: u64,
}

#[derive(Clone, Copy)]
pub struct InversePointArguments {
    pub transform: SurfaceTransform,
    pub point: Point,
}
