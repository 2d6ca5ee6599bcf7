// That no call damages a registry.

#![tactic(auto)]

ghost use Rattle.std.specs.Prelude.{◌≡◌, true};
ghost use Rattle.composition_state.specs.Damage.{is_sound};
ghost use Rattle.composition_soundness.specs.Claims.{Undamaged, SoundnessClaims};

use composition_state::registry::CompositionRegistry;

// No call leads from a registry that the damage test accepts to one that it rejects, and none answers 42 to it, as a
// theorem that the check names.
pub fn soundness_claims()
    ensures { SoundnessClaims }
{}

// A registry that the damage test accepts is one that these claims are about: its arrays have the length of their
// types.
pub fn undamaged_if_sound(registry: CompositionRegistry)
    ensures { is_sound registry ≡ true → Undamaged registry }
{}
