// The list of releases: of presses in their order, of presses panel by panel, of presses and captures.
ghost use Rattle.std.specs.Prelude.{◌≡◌, cond, ◌<◌, ◌≤◌, [], ◌∷◌, length, MatchOption};
ghost use Rattle.std.specs.List.{fold};
ghost use Rattle.lists.specs.Lists.{first};
ghost use Rattle.lists.specs.Tables.{entries_of, packed, pushed_within};
ghost use Rattle.handles.specs.Handles.{handle_lt};
ghost use Rattle.maps.specs.Bindings.{bindings};
ghost use Rattle.maps.specs.Captures.{captures};
ghost use Rattle.release_lists.specs.Captures.{capture_list};
ghost use Rattle.release_lists.specs.Releases.{releases, IsLeast, by_panel, is_pair, is_listed, add_capture, add_captures};

use crate::captures::CaptureList;
use handles::GenerationalHandle;
use lists::table::Table;
use maps::bindings::{Binding, Bindings};
use maps::captures::{Capture, PointerCaptures};
use maps::keys::{BindingKey, pointer_key};
use maps::sorted_map::Entry;

// A release says by its key what is synthesized: a pointer's cancel, a key's up or a gamepad's disconnect.
// The longest list is that of 128 presses and 512 captures.
pub type Releases = Table<Binding, 640>;

fn is_pair(capture: Capture, release: Binding) -> bool
    ensures { result ≡ is_pair capture release }
{
    pointer_key(capture.pointer) == release.key() && capture.surface == release.surface
}

// The list with presses put after its own, as far as there is room.
fn extended(list: Releases, presses: Bindings) -> Releases
    ensures { result ≡ fold (pushed_within releases) list (entries_of bindings presses) }
{
    list.extend(presses.entries().iter().copied())
}

// The releases of presses, in their order.
pub fn of_presses(presses: Bindings) -> Releases
    ensures { result ≡ packed releases (entries_of bindings presses) }
{
    extended(Releases::new(), presses)
}

fn paired(capture: Capture, releases: &[Binding]) -> Option<Binding>
    ensures { result ≡ first (is_pair capture) releases.now }
{
    releases
        .iter()
        .copied()
        .find(|release| is_pair(capture, *release))
}

fn has_pair(list: Releases, capture: Capture) -> bool
    ensures { result ≡ is_listed capture (entries_of releases list) }
{
    paired(capture, list.entries()).is_some()
}

fn add(list: Releases, capture: Capture) -> Releases
    requires list_value { list ≡ packed releases (entries_of releases list) }
    requires list_len_bound { length (entries_of releases list) < 640 }
    ensures { result ≡ packed releases (add_capture (entries_of releases list) capture) }
{
    if has_pair(list, capture) {
        return list;
    }
    list.push_within(Binding {
        key: BindingKey::Pointer(capture.pointer),
        surface: capture.surface,
    })
}

fn lesser(a: GenerationalHandle, b: GenerationalHandle) -> GenerationalHandle
    ensures { result ≡ cond (handle_lt a b) a b }
{
    if a < b { a } else { b }
}

// The least panel that holds the first press or one of the rest.
fn least_of(first: Binding, rest: &[Binding]) -> GenerationalHandle
    ensures { IsLeast result (first ∷ rest.now) }
{
    let mut least = first.surface;
    for press in rest {
        least = lesser(press.surface, least);
    }
    least
}

// The least panel that holds one of the presses.
fn least_panel(presses: &[Binding]) -> Option<GenerationalHandle>
    ensures { MatchOption result (presses.now ≡ []) (λ surface. IsLeast surface presses.now) }
{
    let (first, rest) = presses.split_first()?;
    Some(least_of(*first, rest))
}

// The releases of presses panel by panel. A turn ends one panel's presses, so what is left says what the next one is.
pub fn by_panel(presses: Bindings) -> Releases
    ensures { result ≡ packed releases (by_panel (entries_of bindings presses)) }
{
    let mut list = Releases::new();
    let mut left = presses;
    while let Some(surface) = least_panel(left.entries()) {
        let taken = left.retain(|press| surface == press.surface);
        list = extended(list, taken);
        left = left.retain(|press| surface != press.surface);
    }
    list
}

fn add_all(presses: Bindings, captures: &[Capture]) -> Releases
    requires { length captures.now ≤ 512 }
    ensures { result ≡ packed releases (add_captures (entries_of bindings presses) captures.now) }
{
    let mut list = of_presses(presses);
    for capture in captures {
        list = add(list, *capture);
    }
    list
}

// The presses of a device, then its captures.
#[tactic(auto, unfolding(crate::specs::Releases::add_captures))]
pub fn add_captures(presses: Bindings, list: CaptureList) -> Releases
    ensures { result ≡ packed releases (add_captures (entries_of bindings presses) (entries_of capture_list list)) }
{
    add_all(presses, list.entries())
}

// The presses of a view's panels, then its captures.
#[tactic(auto, unfolding(crate::specs::Releases::add_captures))]
pub fn add_view_captures(presses: Bindings, held: PointerCaptures) -> Releases
    ensures { result ≡ packed releases (add_captures (entries_of bindings presses) (entries_of captures held)) }
{
    add_all(presses, held.entries())
}
