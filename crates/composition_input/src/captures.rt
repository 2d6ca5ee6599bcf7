// Pointer captures: taken by a panel, released by it, and released with their device.
ghost use Rattle.std.specs.Prelude.{◌≡◌, cond, List, ◌<◌};
ghost use Rattle.std.specs.List.{fold};
ghost use Rattle.lists.specs.Tables.{entries_of, packed, pushed_within};
ghost use Rattle.maps.specs.Captures.{captures};
ghost use Rattle.maps.specs.declared.captures.Capture.{Capture};
ghost use Rattle.release_lists.specs.Captures.{capture_list};
ghost use Rattle.records.specs.Views.{with_pointer_capture, with_pointer_captures};
ghost use Rattle.composition_input.specs.Captures.{primary, is_primary, capture_refusal, capture_pointer_for, release_for_refusal, release_pointer_for, release_refusal, release_pointer, device_refusal, loses_primary, left_view, taken_at, device_captures, cleared_at, device_cleared, release_device_pointer_captures};

use crate::answer::CapturesReleased;
use crate::refusal::{entry_refusal, owner_refusal, with_view_record};
use composition_state::registry::{Answered, Changed, CompositionRegistry};
use handles::GenerationalHandle;
use maps::captures::{Capture, PointerCaptures};
use maps::keys::{CompositionPointerId, InputDeviceId, of_device, pointer_key};
use maps::sorted_map::Entry;
use records::error::{CompositionError, Outcome, refuse_if};
use records::surface::is_interactive;
use records::view::{ViewRecord, ViewTable};
use release_lists::captures::CaptureList;

fn is_primary(pointer: CompositionPointerId) -> bool
    ensures { result ≡ is_primary pointer }
{
    pointer == CompositionPointerId::PRIMARY
}

// A view with another map, and where PRIMARY is touched with another single field.
fn with_captures(
    view: ViewRecord,
    captures: PointerCaptures,
    is_touched: bool,
    holder: Option<GenerationalHandle>,
) -> ViewRecord
    ensures { result ≡ cond is_touched (with_pointer_capture holder (with_pointer_captures captures view))
        (with_pointer_captures captures view) }
{
    let changed = view.with_pointer_captures(captures);
    if is_touched {
        changed.with_pointer_capture(holder)
    } else {
        changed
    }
}

fn capture_refusal(
    registry: CompositionRegistry,
    pointer: CompositionPointerId,
    surface: GenerationalHandle,
    expected_revision: u64,
) -> Outcome
    ensures { result ≡ capture_refusal registry pointer surface expected_revision }
{
    entry_refusal(registry, expected_revision)?;
    refuse_if(!pointer.is_valid(), CompositionError::NotInteractive)?;
    registry.surfaces.refusal(surface)?;
    let descriptor = registry.surfaces.descriptor(surface);
    refuse_if(
        !is_interactive(descriptor.input),
        CompositionError::NotInteractive,
    )?;
    registry.views.refusal(descriptor.view)?;
    let captures = registry.views.record(descriptor.view).pointer_captures;
    let taken = captures.insert(Capture { pointer, surface });
    refuse_if(taken.is_none(), CompositionError::PortLimit)
}

// A panel takes a pointer: from now on the pointer's events in its view go to that panel alone.
#[tactic(auto, unfolding(crate::specs::Captures::capture_pointer_for))]
pub fn capture_pointer_for(
    registry: CompositionRegistry,
    pointer: CompositionPointerId,
    surface: GenerationalHandle,
    expected_revision: u64,
) -> Changed
    ensures { result ≡ capture_pointer_for registry pointer surface expected_revision }
{
    let view = registry.surfaces.descriptor(surface).view;
    let record = registry.views.record(view);
    let captures = record.pointer_captures;
    let taken = captures
        .insert(Capture { pointer, surface })
        .unwrap_or(captures);
    let captured = with_captures(record, taken, is_primary(pointer), Some(surface));
    let refusal = capture_refusal(registry, pointer, surface, expected_revision);
    registry.settle(refusal, with_view_record(registry, view, captured))
}

// A panel takes PRIMARY, the pointer of events that name none.
#[tactic(auto, unfolding(crate::specs::Captures::capture_pointer_for))]
pub fn capture_pointer(
    registry: CompositionRegistry,
    surface: GenerationalHandle,
    expected_revision: u64,
) -> Changed
    ensures { result ≡ capture_pointer_for registry primary surface expected_revision }
{
    capture_pointer_for(
        registry,
        CompositionPointerId::PRIMARY,
        surface,
        expected_revision,
    )
}

fn release_for_refusal(
    registry: CompositionRegistry,
    pointer: CompositionPointerId,
    surface: GenerationalHandle,
    expected_revision: u64,
) -> Outcome
    ensures { result ≡ release_for_refusal registry pointer surface expected_revision }
{
    owner_refusal(registry, surface, expected_revision)?;
    let view = registry.surfaces.descriptor(surface).view;
    let holder = registry.views.record(view).pointer_captures.get(pointer);
    refuse_if(holder != Some(surface), CompositionError::NotInteractive)
}

// A panel gives back a pointer that it has captured.
#[tactic(auto, unfolding(crate::specs::Captures::release_pointer_for))]
pub fn release_pointer_for(
    registry: CompositionRegistry,
    pointer: CompositionPointerId,
    surface: GenerationalHandle,
    expected_revision: u64,
) -> Changed
    ensures { result ≡ release_pointer_for registry pointer surface expected_revision }
{
    let view = registry.surfaces.descriptor(surface).view;
    let record = registry.views.record(view);
    let left = record.pointer_captures.remove(pointer);
    let released = with_captures(record, left, is_primary(pointer), None);
    let refusal = release_for_refusal(registry, pointer, surface, expected_revision);
    registry.settle(refusal, with_view_record(registry, view, released))
}

fn release_refusal(
    registry: CompositionRegistry,
    surface: GenerationalHandle,
    expected_revision: u64,
) -> Outcome
    ensures { result ≡ release_refusal registry surface expected_revision }
{
    owner_refusal(registry, surface, expected_revision)?;
    let view = registry.surfaces.descriptor(surface).view;
    let holder = registry.views.record(view).pointer_capture;
    refuse_if(holder != Some(surface), CompositionError::NotInteractive)
}

// By the view's single field, and not by the map.
#[tactic(auto, unfolding(crate::specs::Captures::release_pointer))]
pub fn release_pointer(
    registry: CompositionRegistry,
    surface: GenerationalHandle,
    expected_revision: u64,
) -> Changed
    ensures { result ≡ release_pointer registry surface expected_revision }
{
    let view = registry.surfaces.descriptor(surface).view;
    let record = registry.views.record(view);
    let left = record
        .pointer_captures
        .remove(CompositionPointerId::PRIMARY);
    let released = with_captures(record, left, true, None);
    let refusal = release_refusal(registry, surface, expected_revision);
    registry.settle(refusal, with_view_record(registry, view, released))
}

// Whether PRIMARY is captured and of the device.
fn loses_primary(captures: PointerCaptures, device: InputDeviceId) -> bool
    ensures { result ≡ loses_primary device.value device.generation captures }
{
    captures.get(CompositionPointerId::PRIMARY).is_some()
        && of_device(pointer_key(CompositionPointerId::PRIMARY), device)
}

// A view without the captures of the device.
fn left_view(view: ViewRecord, device: InputDeviceId) -> ViewRecord
    ensures { result ≡ left_view device.value device.generation view }
{
    let left = view
        .pointer_captures
        .retain(|capture| !of_device(capture.key(), device));
    let touched = loses_primary(view.pointer_captures, device);
    with_captures(view, left, touched, None)
}

// The captures of the device in the view of a slot.
fn taken_at(views: ViewTable, device: InputDeviceId, i: usize) -> PointerCaptures
    requires { i < 16 }
    ensures { result ≡ packed captures (taken_at views device.value device.generation i) }
{
    let slot = views.arena.slots[i];
    if !slot.filled {
        return PointerCaptures::new();
    }
    let view = GenerationalHandle {
        index: i as u32,
        generation: slot.generation,
    };
    views
        .record(view)
        .pointer_captures
        .retain(|capture| of_device(capture.key(), device))
}

// The list with the entries of a map put after its own, one after the other.
fn extended(list: CaptureList, taken: PointerCaptures) -> CaptureList
    ensures { result ≡ fold (pushed_within capture_list) list (entries_of captures taken) }
{
    list.extend(taken.entries().iter().copied())
}

// The captures of the device in every live view.
#[tactic(auto, unfolding(crate::specs::Captures::device_captures))]
fn device_captures(views: ViewTable, device: InputDeviceId) -> CaptureList
    ensures { result ≡ packed capture_list (device_captures views device.value device.generation) }
{
    let mut list = CaptureList::new();
    for i in 0..views.slots() {
        list = extended(list, taken_at(views, device, i));
    }
    list
}

fn cleared_at(views: ViewTable, device: InputDeviceId, i: usize) -> ViewTable
    requires { i < 16 }
    ensures { result ≡ cleared_at device.value device.generation i views }
{
    let slot = views.arena.slots[i];
    if !slot.filled {
        return views;
    }
    let view = GenerationalHandle {
        index: i as u32,
        generation: slot.generation,
    };
    views.with_record(view, left_view(views.record(view), device))
}

// The views without the captures of the device.
#[tactic(auto, unfolding(crate::specs::Captures::device_cleared))]
fn device_cleared(views: ViewTable, device: InputDeviceId) -> ViewTable
    ensures { result ≡ device_cleared views device.value device.generation }
{
    let mut cleared = views;
    for i in 0..views.slots() {
        cleared = cleared_at(cleared, device, i);
    }
    cleared
}

fn device_refusal(registry: CompositionRegistry, device: InputDeviceId) -> Outcome
    ensures { result ≡ device_refusal registry device.value device.generation }
{
    registry.damage()?;
    refuse_if(!device.is_valid(), CompositionError::NotInteractive)
}

// A device is gone: its captures end in every view, and are listed.
#[tactic(auto, unfolding(crate::specs::Captures::release_device_pointer_captures))]
pub fn release_device_pointer_captures(
    registry: CompositionRegistry,
    device: u64,
    device_generation: u32,
) -> CapturesReleased
    ensures { result ≡ release_device_pointer_captures registry device device_generation }
{
    let device = InputDeviceId {
        value: device,
        generation: device_generation,
    };
    let list = device_captures(registry.views, device);
    let refusal = device_refusal(registry, device);
    if list.len == 0 {
        return Answered::with(
            list,
            Changed {
                outcome: refusal,
                registry,
            },
        );
    }
    let cleared = device_cleared(registry.views, device);
    Answered::with(list, registry.settle(refusal, registry.with_views(cleared)))
}
