// The refusal of a system shortcut: 8 or 9 of a live panel's own view.
ghost use Rattle.std.specs.Prelude.{◌≡◌};
ghost use Rattle.std.specs.List.{find as first};
ghost use Rattle.lists.specs.Tables.{entries_of};
ghost use Rattle.records.specs.Shortcuts.{shortcuts as stored};
ghost use Rattle.composition_shortcuts.specs.OwnView.{is_window, is_asking, asks_window, own_refusal, is_refused, own_view_refusal};

use crate::scope::shares_bit;
use handles::GenerationalHandle;
use handles::arena::{Arena, live_handles, lookup};
use records::error::{CompositionError, Outcome, refuse_status};
use records::shortcut::{ShortcutScope, Shortcuts, SlotShortcut};
use records::surface::SurfaceTable;

fn is_window(scope: ShortcutScope) -> bool
    ensures { result ≡ is_window scope }
{
    matches!(scope, ShortcutScope::Window)
}

// Whether a registration of Window scope is the slot's and shares a class bit.
fn is_asking(slot: u32, class_mask: u64, entry: SlotShortcut) -> bool
    ensures { result ≡ is_asking slot class_mask entry }
{
    slot == entry.slot
        && is_window(entry.registration.scope)
        && shares_bit(entry.registration.class_mask, class_mask)
}

fn asks_window(shortcuts: Shortcuts, slot: u32, class_mask: u64) -> bool
    ensures { result ≡ asks_window slot class_mask (entries_of stored shortcuts) }
{
    shortcuts
        .entries()
        .iter()
        .any(|entry| is_asking(slot, class_mask, *entry))
}

// What a panel's own view refuses.
fn own_refusal(views: Arena, surfaces: SurfaceTable, panel: GenerationalHandle) -> Outcome
    ensures { result ≡ own_refusal views surfaces panel }
{
    refuse_status(
        lookup(views, surfaces.descriptor(panel).view),
        CompositionError::InvalidView,
        CompositionError::StaleView,
    )
}

fn is_refused(
    views: Arena,
    surfaces: SurfaceTable,
    shortcuts: Shortcuts,
    class_mask: u64,
    panel: GenerationalHandle,
) -> bool
    ensures { result ≡ is_refused views surfaces class_mask (entries_of stored shortcuts) panel }
{
    own_refusal(views, surfaces, panel).is_err() && asks_window(shortcuts, panel.index, class_mask)
}

fn first_refused(
    panels: &[GenerationalHandle],
    views: Arena,
    surfaces: SurfaceTable,
    shortcuts: Shortcuts,
    class_mask: u64,
) -> Option<GenerationalHandle>
    ensures { result ≡ first (is_refused views surfaces class_mask (entries_of stored shortcuts)) panels.now }
{
    panels.iter().copied().find(|panel| is_refused(views, surfaces, shortcuts, class_mask, *panel))
}

// The refusal of the first such panel in slot order.
#[tactic(auto, unfolding(crate::specs::OwnView::own_view_refusal))]
pub fn own_view_refusal(
    views: Arena,
    surfaces: SurfaceTable,
    shortcuts: Shortcuts,
    class_mask: u64,
) -> Outcome
    ensures { result ≡ own_view_refusal views surfaces class_mask (entries_of stored shortcuts) }
{
    let panels = live_handles(surfaces.arena);
    match first_refused(panels.entries(), views, surfaces, shortcuts, class_mask) {
        Some(panel) => own_refusal(views, surfaces, panel),
        None => Ok(()),
    }
}
