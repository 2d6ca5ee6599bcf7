// Releases by the router: of a panel, of all panels, of a device.
ghost use Rattle.std.specs.Prelude.{◌≡◌};
ghost use Rattle.input_router.specs.Releases.{release_outcome, releases_of, damaged_release, release_surface, release_all, device_presses, without_device_presses, without_device};

use crate::router::PlatformInputRouter;
use handles::GenerationalHandle;
use input_events::error::{PlatformInputError, RouterOutcome};
use maps::bindings::Bindings;
use maps::keys::{InputDeviceId, of_device};
use maps::sorted_map::Entry;
use release_lists::releases::{Releases, by_panel, of_presses};

// The answer of a router release: a damaged router is refused 42 and stays as it came.
#[derive(Clone, Copy)]
pub struct Released {
    pub outcome: Result<Releases, PlatformInputError>,
    pub router: PlatformInputRouter,
}

impl Released {
    // Whether it is accepted, or why it is refused, without the list.
    pub fn refusal(&self) -> RouterOutcome
        ensures { result ≡ release_outcome self.now }
    {
        match self.outcome {
            Ok(_) => Ok(()),
            Err(error) => Err(error),
        }
    }

    // What it lists: nothing where it is refused.
    pub fn listed(&self) -> Releases
        ensures { result ≡ releases_of self.now }
    {
        match self.outcome {
            Ok(releases) => releases,
            Err(_) => Releases::new(),
        }
    }
}

impl PlatformInputRouter {
    // Ends the presses of a panel.
    #[tactic(auto, unfolding(crate::specs::Releases::release_surface))]
    pub fn release_surface(self, surface: GenerationalHandle) -> Released
        ensures { result ≡ release_surface self surface }
    {
        if !self.is_sound() {
            return self.refused();
        }
        Released {
            outcome: Ok(of_presses(self.bindings.retain(|press| surface == press.surface))),
            router: self.with_bindings(self.bindings.retain(|press| surface != press.surface)),
        }
    }

    // Ends all presses, panel by panel, and forgets sequences and the time.
    #[tactic(auto, unfolding(crate::specs::Releases::release_all))]
    pub fn release_all(self) -> Released
        ensures { result ≡ release_all self }
    {
        if !self.is_sound() {
            return self.refused();
        }
        Released {
            outcome: Ok(by_panel(self.bindings)),
            router: PlatformInputRouter::empty(self.max_active_bindings),
        }
    }

    // A damaged router is refused: it lists nothing and stays as it came.
    fn refused(self) -> Released
        ensures { result ≡ damaged_release self }
    {
        Released {
            outcome: Err(PlatformInputError::Damaged),
            router: self,
        }
    }

    // The presses of a device, in the order of their release.
    pub fn device_presses(self, device: InputDeviceId) -> Bindings
        ensures { result ≡ device_presses self device }
    {
        self.bindings.retain(|press| of_device(press.key(), device))
    }

    pub fn without_device_presses(self, device: InputDeviceId) -> Self
        ensures { result ≡ without_device_presses self device }
    {
        self.with_bindings(
            self.bindings
                .retain(|press| !of_device(press.key(), device)),
        )
    }

    // The router without the presses and the sequence number of a device; the time stays.
    pub fn without_device(self, device: InputDeviceId) -> Self
        ensures { result ≡ without_device self device }
    {
        self.without_device_presses(device)
            .with_sequences(self.device_sequences.remove(device))
    }
}
