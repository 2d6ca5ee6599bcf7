// A panel leaves its view: what it had there, where the focus goes, and the report of it.
ghost use Rattle.std.specs.Prelude.{◌≡◌, cond, length, None};
ghost use Rattle.lists.specs.Lists.{keep};
ghost use Rattle.composition_close.specs.Detach.{is_on_surface, takes_focus, topmost, restored_focus, had_capture, detached_view, close_report};

use crate::answer::{SurfaceCloseReport, releases_of};
use handles::GenerationalHandle;
use handles::arena::SlotStatus;
use maps::captures::Capture;
use records::layers::{Layers, layers_without};
use records::surface::{SurfaceTable, is_interactive};
use records::view::{ViewRecord, ViewTable};

// Whether a layer is a live panel that can have the focus.
fn takes_focus(surfaces: SurfaceTable, at: GenerationalHandle) -> bool
    ensures { result ≡ takes_focus surfaces at }
{
    matches!(handles::arena::lookup(surfaces.arena, at), SlotStatus::Live)
        && is_interactive(surfaces.descriptor(at).input)
}

// The topmost layer that can have the focus.
#[tactic(auto, unfolding(crate::specs::Detach::topmost))]
fn topmost_focus(surfaces: SurfaceTable, remaining: Layers) -> Option<GenerationalHandle>
    ensures { result ≡ topmost surfaces remaining }
{
    remaining
        .entries()
        .iter()
        .rev()
        .copied()
        .find(|at| takes_focus(surfaces, *at))
}

// Where the focus goes if the panel has it.
fn restored_focus(
    surfaces: SurfaceTable,
    view: ViewRecord,
    surface: GenerationalHandle,
) -> Option<GenerationalHandle>
    ensures { result ≡ restored_focus surfaces view surface }
{
    if view.focus == Some(surface) {
        topmost_focus(surfaces, layers_without(view.surfaces, surface))
    } else {
        None
    }
}

fn count_on(captures: &[Capture], surface: GenerationalHandle) -> usize
    ensures { result ≡ length (keep (is_on_surface surface) captures.now) }
{
    captures
        .iter()
        .filter(|capture| surface == capture.surface)
        .count()
}

// Whether the panel has the view's single field or a pointer of its map.
#[tactic(auto, unfolding(crate::specs::Detach::had_capture))]
fn had_capture(view: ViewRecord, surface: GenerationalHandle) -> bool
    ensures { result ≡ had_capture view surface }
{
    view.pointer_capture == Some(surface) || count_on(view.pointer_captures.entries(), surface) != 0
}

// What is left where a panel has gone: nothing, if it was the panel's.
fn left_if(gone: bool, held: Option<GenerationalHandle>) -> Option<GenerationalHandle>
    ensures { result ≡ cond gone None held }
{
    if gone { None } else { held }
}

#[tactic(auto, unfolding(crate::specs::Detach::detached_view))]
pub fn detached_view(
    surfaces: SurfaceTable,
    view: ViewRecord,
    surface: GenerationalHandle,
) -> ViewRecord
    ensures { result ≡ detached_view surfaces view surface }
{
    ViewRecord {
        surfaces: layers_without(view.surfaces, surface),
        focus: if view.focus == Some(surface) {
            restored_focus(surfaces, view, surface)
        } else {
            view.focus
        },
        pointer_capture: left_if(had_capture(view, surface), view.pointer_capture),
        pointer_captures: view
            .pointer_captures
            .retain(|capture| surface != capture.surface),
        ime: left_if(view.ime == Some(surface), view.ime),
        ..view
    }
}

// The report of a panel's close, from its view as it was, with the revision after it.
#[tactic(auto, unfolding(crate::specs::Detach::close_report))]
pub fn close_report(
    surfaces: SurfaceTable,
    views: ViewTable,
    surface: GenerationalHandle,
    revision: u64,
) -> SurfaceCloseReport
    ensures { result ≡ close_report surfaces views surface revision }
{
    let view = views.record(surfaces.descriptor(surface).view);
    SurfaceCloseReport {
        surface,
        releases: releases_of(
            view.ime == Some(surface),
            had_capture(view, surface),
            view.focus == Some(surface),
        ),
        restored_focus: restored_focus(surfaces, view, surface),
        revision,
    }
}
