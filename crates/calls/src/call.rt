// The calls, in groups that answer alike.
use crate::arguments::{
    ArbitrateArguments, DeviceArguments, FocusArguments, GeometryArguments, HandleArguments,
    HitTestArguments, InversePointArguments, MaskArguments, MetricsArguments, PointerArguments,
    PolicyArguments, RegistrationArguments,
};
use composition_shortcuts::register::Registrations;
use handles::GenerationalHandle;
use input_events::event::PlatformInputEvent;
use records::surface::SurfaceDescriptor;
use records::trace::Hits;

#[derive(Clone, Copy)]
pub enum PanelCall {
    CreateWindow,
    CloseWindow(GenerationalHandle),
    CreateView(GenerationalHandle),
    UpdateViewMetrics(MetricsArguments),
    CloseView(GenerationalHandle),
    AttachSurface(SurfaceDescriptor),
    UpdateSurfaceGeometry(GeometryArguments),
    UpdateSurfaceInputPolicy(PolicyArguments),
}

#[derive(Clone, Copy)]
pub enum InputCall {
    SetFocus(FocusArguments),
    CapturePointer(HandleArguments),
    CapturePointerFor(PointerArguments),
    ReleasePointer(HandleArguments),
    ReleasePointerFor(PointerArguments),
    BeginIme(HandleArguments),
    EndIme(HandleArguments),
    SuspendViewInput(HandleArguments),
}

// The registrations of `RegisterSet` stand beside the call.
#[derive(Clone, Copy)]
pub enum ShortcutCall {
    RegisterSet(HandleArguments),
    RegisterOne(RegistrationArguments),
    SetMask(MaskArguments),
}

#[derive(Clone, Copy)]
pub enum CloseCall {
    CloseSurface(GenerationalHandle),
    Shutdown,
}

#[derive(Clone, Copy)]
pub enum RouterCall {
    Route(PlatformInputEvent),
    ReleaseSurface(GenerationalHandle),
    ReleaseAll,
}

// The calls that alter nothing.
#[derive(Clone, Copy)]
pub enum ReadCall {
    ViewWindow(GenerationalHandle),
    ViewMetrics(GenerationalHandle),
    ViewInputState(GenerationalHandle),
    ViewPointerCaptures(GenerationalHandle),
    SurfaceDescriptor(GenerationalHandle),
    ViewLayers(GenerationalHandle),
    Traces,
    Counts,
    ActiveBindingCount,
    HitTestStack(HitTestArguments),
    InversePoint(InversePointArguments),
}

// The release of a device's captures is no `InputCall`: it alone of these answers a list of captures.
// The hits of an arbitration stand beside the call.
#[derive(Clone, Copy)]
pub enum Call {
    Panel(PanelCall),
    Input(InputCall),
    ReleaseDevice(DeviceArguments),
    Shortcut(ShortcutCall),
    Arbitrate(ArbitrateArguments),
    Close(CloseCall),
    Router(RouterCall),
    Read(ReadCall),
}

// What is handed in beside a call, so that a call is small where it is copied: the hits of an arbitration and the
// registrations of a set.
#[derive(Clone, Copy)]
pub struct Lists {
    pub hits: Hits,
    pub registrations: Registrations,
}
