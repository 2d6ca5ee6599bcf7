// The last arbitrations, and their table.
// The tables are structs of their own, since C hands in none with parameters.
ghost use Rattle.std.specs.Prelude.{◌≡◌};
ghost use Rattle.counter_memory.specs.Traces.{trace_memory, trace_of, traces_memory, traces_of};

use crate::arrays::converted;
use crate::events::ArbitrationEventMemory;
use crate::optionals::OptionalHandleMemory;
use handles::GenerationalHandle;
use records::trace::{CompositionTrace, Deliveries, Hits, InputDelivery, Traces};

#[repr(C)]
#[derive(Clone, Copy)]
pub struct HitsMemory {
    pub items: [GenerationalHandle; 16],
    pub len: usize,
}

#[repr(C)]
#[derive(Clone, Copy)]
pub struct DeliveriesMemory {
    pub items: [InputDelivery; 16],
    pub len: usize,
}

#[repr(C)]
#[derive(Clone, Copy)]
pub struct CompositionTraceMemory {
    pub revision: u64,
    pub view: GenerationalHandle,
    pub event: ArbitrationEventMemory,
    pub hits: HitsMemory,
    pub deliveries: DeliveriesMemory,
    pub consumed_by: OptionalHandleMemory,
}

#[repr(C)]
#[derive(Clone, Copy)]
pub struct TracesMemory {
    pub items: [CompositionTraceMemory; 32],
    pub len: usize,
}

impl From<CompositionTrace> for CompositionTraceMemory {
    ghost from_gives = { λ trace memory. memory ≡ trace_memory trace };

    fn from(trace: CompositionTrace) -> Self {
        let hits = trace.hits.items;
        let deliveries = trace.deliveries.items;
        Self {
            revision: trace.revision,
            view: trace.view,
            event: trace.event.into(),
            hits: HitsMemory {
                items: hits,
                len: trace.hits.len,
            },
            deliveries: DeliveriesMemory {
                items: deliveries,
                len: trace.deliveries.len,
            },
            consumed_by: trace.consumed_by.into(),
        }
    }
}

impl From<CompositionTraceMemory> for CompositionTrace {
    ghost from_gives = { λ memory trace. trace ≡ trace_of memory };

    fn from(memory: CompositionTraceMemory) -> Self {
        let hits = memory.hits.items;
        let deliveries = memory.deliveries.items;
        Self {
            revision: memory.revision,
            view: memory.view,
            event: memory.event.into(),
            hits: Hits {
                items: hits,
                len: memory.hits.len,
            },
            deliveries: Deliveries {
                items: deliveries,
                len: memory.deliveries.len,
            },
            consumed_by: memory.consumed_by.into(),
        }
    }
}

impl From<Traces> for TracesMemory {
    ghost from_gives = { λ traces memory. memory ≡ traces_memory traces };

    fn from(traces: Traces) -> Self {
        Self {
            items: converted(&traces.items),
            len: traces.len,
        }
    }
}

impl From<TracesMemory> for Traces {
    ghost from_gives = { λ memory traces. traces ≡ traces_of memory };

    fn from(memory: TracesMemory) -> Self {
        Self {
            items: converted(&memory.items),
            len: memory.len,
        }
    }
}
