// System shortcuts: what a panel registers, and which panel an event goes to.

#![tactic(auto)]

mod candidate;
mod own_view;
pub mod register;
pub mod resolve;
mod scope;

ghost use Rattle.composition_shortcuts.specs.Claims.{ShortcutClaims};

// The claims about these calls, as a theorem that the check names.
pub fn shortcut_claims()
    ensures { ShortcutClaims }
{}
