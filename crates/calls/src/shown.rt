// What a call shows beside its handle, its lists and its report: one variant for each kind of value.
use crate::arguments::HitTestArguments;
use geometry::metrics::ViewMetrics;
use geometry::transform::Point;
use handles::GenerationalHandle;
use records::surface::SurfaceDescriptor;
use records::view::ViewInputState;

// The plain read-outs of a registry, together.
#[derive(Clone, Copy)]
pub struct Counts {
    pub session: GenerationalHandle,
    pub session_epoch: u64,
    pub revision: u64,
    pub windows: usize,
    pub views: usize,
    pub surfaces: usize,
}

// A list is no variant's value, which every answer would have the room for. The variant names it: the captures and layers of a view, the
// traces, and the hits at a point are read from the counter after the call, which a read leaves as it was.
#[derive(Clone, Copy)]
pub enum Shown {
    Nothing,
    Window(GenerationalHandle),
    Metrics(ViewMetrics),
    InputState(ViewInputState),
    Captures(GenerationalHandle),
    Descriptor(SurfaceDescriptor),
    Layers(GenerationalHandle),
    Traces,
    Counts(Counts),
    BindingCount(u64),
    Hits(HitTestArguments),
    Local(Option<Point>),
}
