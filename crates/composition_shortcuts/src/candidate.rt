// The registrations that count, as they are compared, and the greatest of them.
ghost use Rattle.std.specs.Prelude.{◌≡◌, List, [], ◌∷◌, ◌++◌};
ghost use Rattle.composition_shortcuts.specs.declared.candidate.Candidate.{Candidate};
ghost use Rattle.composition_shortcuts.specs.Candidates.{scope_rank, candidate_of, is_less, best_of};

use crate::scope::owner_of;
use handles::GenerationalHandle;
use records::shortcut::{ShortcutScope, SlotShortcut};
use records::surface::SurfaceTable;

// A registration that counts. The fields stand in the order in which they are compared.
#[derive(Clone, Copy, PartialEq, Eq, PartialOrd, Ord)]
pub struct Candidate {
    pub priority: i16,
    pub scope_rank: u8,
    pub same_view: bool,
    pub z_order: i32,
    pub surface: GenerationalHandle,
}

// The first scope of the enum is the greatest.
fn rank_of(scope: ShortcutScope) -> u8
    ensures { result ≡ scope_rank scope }
{
    match scope {
        ShortcutScope::View => 3,
        ShortcutScope::Window => 2,
        ShortcutScope::Session => 1,
    }
}

#[tactic(auto, unfolding(crate::specs::Candidates::candidate_of))]
pub fn candidate_of(
    surfaces: SurfaceTable,
    view: GenerationalHandle,
    entry: SlotShortcut,
) -> Candidate
    ensures { result ≡ candidate_of surfaces view entry }
{
    let surface = owner_of(surfaces.arena, entry);
    let descriptor = surfaces.descriptor(surface);
    Candidate {
        priority: entry.registration.priority,
        scope_rank: rank_of(entry.registration.scope),
        same_view: descriptor.view == view,
        z_order: descriptor.z_order,
        surface,
    }
}

#[tactic(auto, unfolding(crate::specs::Candidates::is_less))]
fn is_less(a: Candidate, b: Candidate) -> bool
    ensures { result ≡ is_less a b }
{
    a < b
}

// The greatest of some candidates, with one candidate more.
pub fn greater_of(best: Option<Candidate>, candidate: Candidate) -> Option<Candidate>
    ensures { (l : List Candidate) → best ≡ best_of l → result ≡ best_of (l ++ (candidate ∷ [])) }
{
    match best {
        None => Some(candidate),
        Some(other) => {
            if is_less(other, candidate) {
                Some(candidate)
            } else {
                Some(other)
            }
        }
    }
}
