// The enums of panels, views and shortcuts, by their numbers: the declared order from 0.

#![tactic(auto, unfolding(crate::specs::PanelChoices::surface_kind_of, crate::specs::PanelChoices::policy_of, crate::specs::PanelChoices::visibility_of, crate::specs::PanelChoices::scope_of))]

ghost use Rattle.std.specs.Prelude.{◌≡◌};
ghost use Rattle.call_fields.specs.PanelChoices.{surface_kind_of, surface_kind_number, policy_of, policy_number, visibility_of, visibility_number, scope_of, scope_number};
ghost use Rattle.call_fields.specs.Back.{surface_kind_back, policy_back, visibility_back, scope_back};

use crate::numbered::Numbered;
use geometry::metrics::ViewVisibility;
use records::shortcut::ShortcutScope;
use records::surface::{SurfaceInputPolicy, SurfaceKind};

impl Numbered for SurfaceKind {
    ghost value_of = { surface_kind_of };

    ghost number_of = { surface_kind_number };

    ghost back = { λ x h. surface_kind_back x };

    fn from_number(n: u64) -> SurfaceKind {
        match n {
            1 => SurfaceKind::Ui,
            2 => SurfaceKind::Diagnostics,
            _ => SurfaceKind::Game,
        }
    }

    fn number(self) -> u64 {
        self as u64
    }
}

impl Numbered for SurfaceInputPolicy {
    ghost value_of = { policy_of };

    ghost number_of = { policy_number };

    ghost back = { λ x h. policy_back x };

    fn from_number(n: u64) -> SurfaceInputPolicy {
        match n {
            1 => SurfaceInputPolicy::Passthrough,
            2 => SurfaceInputPolicy::Interactive,
            3 => SurfaceInputPolicy::Exclusive,
            _ => SurfaceInputPolicy::Observe,
        }
    }

    fn number(self) -> u64 {
        self as u64
    }
}

impl Numbered for ViewVisibility {
    ghost value_of = { visibility_of };

    ghost number_of = { visibility_number };

    ghost back = { λ x h. visibility_back x };

    fn from_number(n: u64) -> ViewVisibility {
        match n {
            1 => ViewVisibility::Hidden,
            2 => ViewVisibility::Suspended,
            _ => ViewVisibility::Visible,
        }
    }

    fn number(self) -> u64 {
        self as u64
    }
}

impl Numbered for ShortcutScope {
    ghost value_of = { scope_of };

    ghost number_of = { scope_number };

    ghost back = { λ x h. scope_back x };

    fn from_number(n: u64) -> ShortcutScope {
        match n {
            1 => ShortcutScope::Window,
            2 => ShortcutScope::Session,
            _ => ShortcutScope::View,
        }
    }

    fn number(self) -> u64 {
        self as u64
    }
}
