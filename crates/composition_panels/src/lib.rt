// The calls on windows, views, metrics and panels.

#![tactic(auto)]

pub mod answer;
pub mod metrics;
pub mod panels;
pub mod views;
pub mod windows;

ghost use Rattle.composition_panels.specs.Claims.{PanelClaims};

// The claims about these calls, as a theorem that the check names.
pub fn panel_claims()
    ensures { PanelClaims }
{}
