// The damage test, 42: whether a registry that is handed in is one that calls could have left.
ghost use Rattle.std.specs.Prelude.{◌≡◌, ◌≤◌, ◌<◌};
ghost use Rattle.lists.specs.Lists.{all};
ghost use Rattle.composition_state.specs.Damage.{limits_sound, arenas_sound, trace_sound, traces_sound, layers_sound, view_sound, slot_sound, views_sound, is_sound, damage_refusal};

use crate::registry::{CompositionLimits, CompositionRegistry};
use handles::GenerationalHandle;
use handles::arena::{Arena, SlotStatus};
use handles::well_formed::is_well_formed;
use records::error::{CompositionError, Outcome};
use records::layers::{are_layers_of, are_rising};
use records::surface::SurfaceTable;
use records::trace::{CompositionTrace, Traces};
use records::view::{ViewRecord, ViewTable};

fn are_limits_sound(limits: CompositionLimits, first_generation: u32) -> bool
    ensures { result ≡ limits_sound limits first_generation }
{
    !crate::start::any_zero(limits) && !crate::start::any_over_port(limits) && first_generation != 0
}

#[tactic(auto, unfolding(crate::specs::Damage::arenas_sound))]
fn are_arenas_sound(
    limits: CompositionLimits,
    windows: Arena,
    views: Arena,
    surfaces: Arena,
) -> bool
    ensures { result ≡ arenas_sound limits windows views surfaces }
{
    is_well_formed(windows, limits.max_windows as usize)
        && is_well_formed(views, limits.max_views as usize)
        && is_well_formed(surfaces, limits.max_surfaces as usize)
}

fn is_trace_sound(trace: CompositionTrace) -> bool
    ensures { result ≡ trace_sound trace }
{
    trace.hits.len <= 16 && trace.deliveries.len <= 16
}

fn all_sound(traces: &[CompositionTrace]) -> bool
    ensures { result ≡ all trace_sound traces.now }
{
    traces.iter().all(|trace| is_trace_sound(*trace))
}

#[tactic(auto, unfolding(crate::specs::Damage::traces_sound))]
fn are_traces_sound(limit: u64, stored: &Traces) -> bool
    ensures { result ≡ traces_sound limit stored.now }
{
    stored.len as u64 <= limit && all_sound(stored.entries())
}

#[tactic(auto, unfolding(crate::specs::Damage::layers_sound))]
fn are_layers_sound(
    surfaces: &SurfaceTable,
    limit: u64,
    view: GenerationalHandle,
    v: &ViewRecord,
) -> bool
    ensures { result ≡ layers_sound surfaces.now limit view v.now }
{
    v.surfaces.len as u64 <= limit
        && are_layers_of(v.surfaces, surfaces, view)
        && are_rising(v.surfaces, &surfaces.records)
}

#[tactic(auto, unfolding(crate::specs::Damage::view_sound))]
fn is_view_sound(
    windows: Arena,
    surfaces: &SurfaceTable,
    limit: u64,
    view: GenerationalHandle,
    v: &ViewRecord,
) -> bool
    ensures { result ≡ view_sound windows surfaces.now limit view v.now }
{
    matches!(handles::arena::lookup(windows, v.window), SlotStatus::Live)
        && are_layers_sound(surfaces, limit, view, v)
        && v.pointer_captures.table.len <= 32
        && v.pointer_captures.is_rising()
}

// A slot that is not filled holds no view.
fn is_slot_sound(
    windows: Arena,
    surfaces: &SurfaceTable,
    limit: u64,
    views: &ViewTable,
    i: usize,
) -> bool
    requires { i < 16 }
    ensures { result ≡ slot_sound windows surfaces.now limit views.now i }
{
    let slot = handles::arena::slot_at(views.arena.slots, i);
    if !slot.filled {
        return true;
    }
    let view = GenerationalHandle {
        index: i as u32,
        generation: slot.generation,
    };
    is_view_sound(windows, surfaces, limit, view, &views.records[i])
}

#[tactic(auto, unfolding(crate::specs::Damage::views_sound))]
fn are_views_sound(windows: Arena, surfaces: &SurfaceTable, limit: u64, views: &ViewTable) -> bool
    requires { views.now.arena.used ≤ 16 }
    ensures { result ≡ views_sound windows surfaces.now limit views.now }
{
    for i in 0..views.arena.used {
        if !is_slot_sound(windows, surfaces, limit, views, i) {
            return false;
        }
    }
    true
}

impl CompositionRegistry {
    // Whether a registry passes the damage test; one that does not is refused 42 by every call.
    #[tactic(auto, using(crate::proofs::DamageLaws::views_within), unfolding(crate::specs::Damage::is_sound))]
    pub fn is_sound(&self) -> bool
        ensures { result ≡ is_sound self.now }
    {
        if !are_limits_sound(self.limits, self.first_generation) {
            return false;
        }
        if !are_arenas_sound(
            self.limits,
            self.windows,
            self.views.arena,
            self.surfaces.arena,
        ) {
            return false;
        }
        self.shortcuts.len <= 256
            && are_traces_sound(self.limits.max_trace_entries, &self.traces)
            && are_views_sound(
                self.windows,
                &self.surfaces,
                self.limits.max_surfaces_per_view,
                &self.views,
            )
    }

    // What every call refuses first.
    pub fn damage(&self) -> Outcome
        ensures { result ≡ damage_refusal self.now }
    {
        records::error::refuse_if(!self.is_sound(), CompositionError::Damaged)
    }
}
