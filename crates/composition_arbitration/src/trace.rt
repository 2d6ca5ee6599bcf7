// The trace of the last arbitrations.
ghost use Rattle.std.specs.Prelude.{◌≡◌};
ghost use Rattle.composition_arbitration.specs.Trace.{kept_traces, traced};

use records::trace::{CompositionTrace, Traces};

// How many traces stay, the new one among them.
fn kept_traces(limit: u64) -> usize
    ensures { result ≡ kept_traces limit }
{
    limit.clamp(1, 32) as usize
}

// The traces with a new one at the end; the oldest drop out where the limit is passed.
pub fn push_trace(traces: Traces, limit: u64, trace: CompositionTrace) -> Traces
    ensures { result ≡ traced limit traces trace }
{
    let stored = traces.entries();
    let from = (stored.len() + 1).saturating_sub(kept_traces(limit));
    let mut next = Traces::new();
    for old in &stored[from..] {
        next.push_in_place(*old);
    }
    next.push_in_place(trace);
    next
}
