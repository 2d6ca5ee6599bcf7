// That a shutdown is the Rust's steps, none of which is refused.

#![tactic(auto)]

ghost use Rattle.std.specs.Prelude.{◌≡◌};
ghost use Rattle.composition_close.specs.Shutdown.{shutdown_of};
ghost use Rattle.shutdown_steps.specs.Steps.{shutdown_by_steps};
ghost use Rattle.shutdown_steps.specs.Claims.{ShutdownClaims};
ghost use Rattle.shutdown_steps.specs.Examples.{ShutdownExample};

use composition_state::registry::CompositionRegistry;

// After the tests before it no step of a shutdown is refused, and its answer is that of the steps.
pub fn shutdown_claims()
    ensures { ShutdownClaims }
{}

// Of every registry that a program can hold, damaged or not: its arrays have the length of their types.
pub fn shutdown_by_steps(registry: CompositionRegistry)
    ensures { shutdown_of registry ≡ shutdown_by_steps registry }
{}

// The steps of a shutdown of one window, one view and two panels.
pub fn shutdown_example()
    ensures { ShutdownExample }
{}
