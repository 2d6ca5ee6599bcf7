// Which panel a system shortcut goes to.
ghost use Rattle.std.specs.Prelude.{◌≡◌, List, [], ◌∷◌, ◌++◌};
ghost use Rattle.lists.specs.Tables.{entries_of};
ghost use Rattle.records.specs.declared.shortcut.SlotShortcut.{SlotShortcut};
ghost use Rattle.records.specs.Shortcuts.{shortcuts as stored};
ghost use Rattle.composition_shortcuts.specs.Resolve.{best_among, resolve_system_shortcut};

use crate::candidate::{Candidate, candidate_of, greater_of};
use crate::own_view::own_view_refusal;
use crate::scope::{is_counted, shares_bit};
use handles::GenerationalHandle;
use records::error::CompositionError;
use records::shortcut::{Shortcuts, SlotShortcut};
use records::surface::SurfaceTable;
use records::view::ViewTable;

// The panel that the event goes to, or none, if it is not refused.
pub type Resolved = Result<Option<GenerationalHandle>, CompositionError>;

// The greatest that counts of some registrations, with one registration more.
fn consider(
    best: Option<Candidate>,
    views: ViewTable,
    surfaces: SurfaceTable,
    view: GenerationalHandle,
    class_mask: u64,
    entry: SlotShortcut,
) -> Option<Candidate>
    ensures { (l : List SlotShortcut) → best ≡ best_among views surfaces view class_mask l → result
        ≡ best_among views surfaces view class_mask (l ++ (entry ∷ [])) }
{
    if is_counted(views, surfaces, view, class_mask, entry) {
        return greater_of(best, candidate_of(surfaces, view, entry));
    }
    best
}

// Most registrations share no class bit: the tables are not passed for them.
fn best_among(
    views: ViewTable,
    surfaces: SurfaceTable,
    shortcuts: Shortcuts,
    view: GenerationalHandle,
    class_mask: u64,
) -> Option<Candidate>
    ensures { result ≡ best_among views surfaces view class_mask (entries_of stored shortcuts) }
{
    let mut best = None;
    for entry in shortcuts.entries() {
        if shares_bit(entry.registration.class_mask, class_mask) {
            best = consider(best, views, surfaces, view, class_mask, *entry);
        }
    }
    best
}

// The panel whose registration wins. Whatever the tables hold is answered: the damage test and that of the view are the
// caller's.
#[tactic(auto, unfolding(crate::specs::Resolve::resolve_system_shortcut))]
pub fn resolve_system_shortcut(
    views: ViewTable,
    surfaces: SurfaceTable,
    shortcuts: Shortcuts,
    view: GenerationalHandle,
    class_mask: u64,
) -> Resolved
    ensures { result ≡ resolve_system_shortcut views surfaces view class_mask (entries_of stored shortcuts) }
{
    own_view_refusal(views.arena, surfaces, shortcuts, class_mask)?;
    let best = best_among(views, surfaces, shortcuts, view, class_mask);
    Ok(best.map(|candidate| candidate.surface))
}
