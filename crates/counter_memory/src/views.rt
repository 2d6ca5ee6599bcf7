// Views: their metrics, their records, and the table of these by slot.
// The tables are structs of their own, since C hands in none with parameters.
ghost use Rattle.std.specs.Prelude.{◌≡◌};
ghost use Rattle.counter_memory.specs.Views.{metrics_memory, metrics_of, view_memory, view_of, views_memory, views_of};

use crate::arrays::converted;
use crate::optionals::OptionalHandleMemory;
use call_fields::numbered::Numbered;
use geometry::metrics::{ViewInsets, ViewMetrics, ViewVisibility};
use handles::GenerationalHandle;
use handles::arena::Arena;
use lists::table::Table;
use maps::captures::{Capture, PointerCaptures};
use records::layers::Layers;
use records::view::{ViewRecord, ViewTable};

#[repr(C)]
#[derive(Clone, Copy)]
pub struct ViewMetricsMemory {
    pub revision: u64,
    pub origin_x_milli: i32,
    pub origin_y_milli: i32,
    pub width_milli: u32,
    pub height_milli: u32,
    pub framebuffer_width: u32,
    pub framebuffer_height: u32,
    pub scale_q16: u32,
    pub safe_area: ViewInsets,
    pub visibility: u8,
}

#[repr(C)]
#[derive(Clone, Copy)]
pub struct LayersMemory {
    pub items: [GenerationalHandle; 16],
    pub len: usize,
}

#[repr(C)]
#[derive(Clone, Copy)]
pub struct CapturesMemory {
    pub entries: [Capture; 32],
    pub len: usize,
}

#[repr(C)]
#[derive(Clone, Copy)]
pub struct ViewRecordMemory {
    pub window: GenerationalHandle,
    pub metrics: ViewMetricsMemory,
    pub surfaces: LayersMemory,
    pub focus: OptionalHandleMemory,
    pub pointer_capture: OptionalHandleMemory,
    pub pointer_captures: CapturesMemory,
    pub ime: OptionalHandleMemory,
}

#[repr(C)]
#[derive(Clone, Copy)]
pub struct ViewTableMemory {
    pub arena: Arena,
    pub records: [ViewRecordMemory; 16],
}

impl From<ViewMetrics> for ViewMetricsMemory {
    ghost from_gives = { λ metrics memory. memory ≡ metrics_memory metrics };

    fn from(metrics: ViewMetrics) -> Self {
        Self {
            revision: metrics.revision,
            origin_x_milli: metrics.origin_x_milli,
            origin_y_milli: metrics.origin_y_milli,
            width_milli: metrics.width_milli,
            height_milli: metrics.height_milli,
            framebuffer_width: metrics.framebuffer_width,
            framebuffer_height: metrics.framebuffer_height,
            scale_q16: metrics.scale_q16,
            safe_area: metrics.safe_area,
            visibility: metrics.visibility as u8,
        }
    }
}

impl From<ViewMetricsMemory> for ViewMetrics {
    ghost from_gives = { λ memory metrics. metrics ≡ metrics_of memory };

    fn from(memory: ViewMetricsMemory) -> Self {
        Self {
            revision: memory.revision,
            origin_x_milli: memory.origin_x_milli,
            origin_y_milli: memory.origin_y_milli,
            width_milli: memory.width_milli,
            height_milli: memory.height_milli,
            framebuffer_width: memory.framebuffer_width,
            framebuffer_height: memory.framebuffer_height,
            scale_q16: memory.scale_q16,
            safe_area: memory.safe_area,
            visibility: ViewVisibility::from_number(u64::from(memory.visibility)),
        }
    }
}

impl From<ViewRecord> for ViewRecordMemory {
    ghost from_gives = { λ view memory. memory ≡ view_memory view };

    fn from(view: ViewRecord) -> Self {
        let layers = view.surfaces.items;
        let captures = view.pointer_captures.table.items;
        Self {
            window: view.window,
            metrics: view.metrics.into(),
            surfaces: LayersMemory {
                items: layers,
                len: view.surfaces.len,
            },
            focus: view.focus.into(),
            pointer_capture: view.pointer_capture.into(),
            pointer_captures: CapturesMemory {
                entries: captures,
                len: view.pointer_captures.table.len,
            },
            ime: view.ime.into(),
        }
    }
}

impl From<ViewRecordMemory> for ViewRecord {
    ghost from_gives = { λ memory view. view ≡ view_of memory };

    fn from(memory: ViewRecordMemory) -> Self {
        let layers = memory.surfaces.items;
        let captures = memory.pointer_captures.entries;
        Self {
            window: memory.window,
            metrics: memory.metrics.into(),
            surfaces: Layers {
                items: layers,
                len: memory.surfaces.len,
            },
            focus: memory.focus.into(),
            pointer_capture: memory.pointer_capture.into(),
            pointer_captures: PointerCaptures {
                table: Table {
                    items: captures,
                    len: memory.pointer_captures.len,
                },
            },
            ime: memory.ime.into(),
        }
    }
}

impl From<ViewTable> for ViewTableMemory {
    ghost from_gives = { λ views memory. memory ≡ views_memory views };

    fn from(views: ViewTable) -> Self {
        Self {
            arena: views.arena,
            records: converted(&views.records),
        }
    }
}

impl From<ViewTableMemory> for ViewTable {
    ghost from_gives = { λ memory views. views ≡ views_of memory };

    fn from(memory: ViewTableMemory) -> Self {
        Self {
            arena: memory.arena,
            records: converted(&memory.records),
        }
    }
}
