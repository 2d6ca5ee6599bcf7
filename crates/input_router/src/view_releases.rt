// The presses that a view's loss ends: kind by kind, up to the first press whose panel is closed.
ghost use Rattle.std.specs.Prelude.{◌≡◌};
ghost use Rattle.input_router.specs.ViewReleases.{kind_of, is_closed, first_closed, closed_refusal, is_reached, is_taken, release_view};

use crate::router::PlatformInputRouter;
use handles::GenerationalHandle;
use maps::bindings::{Binding, Bindings};
use maps::sorted_map::Entry;
use records::error::{CompositionError, Outcome};
use records::surface::SurfaceTable;

// The presses that end. On a refusal the router has lost the kinds before the closed panel's, unlisted.
#[derive(Clone, Copy)]
pub struct ViewReleased {
    pub outcome: Result<Bindings, CompositionError>,
    pub router: PlatformInputRouter,
}

fn kind_of(press: Binding) -> u32
    ensures { result ≡ kind_of press }
{
    press.key().kind
}

fn is_closed(surfaces: SurfaceTable, press: Binding) -> bool
    ensures { result ≡ is_closed surfaces press }
{
    surfaces.refusal(press.surface).is_err()
}

fn first_closed(presses: &[Binding], surfaces: SurfaceTable) -> Option<Binding>
    ensures { result ≡ first_closed surfaces presses.now }
{
    presses
        .iter()
        .copied()
        .find(|press| is_closed(surfaces, *press))
}

fn closed_refusal(surfaces: SurfaceTable, stop: Option<Binding>) -> Outcome
    ensures { result ≡ closed_refusal surfaces stop }
{
    match stop {
        None => Ok(()),
        Some(press) => surfaces.refusal(press.surface),
    }
}

fn is_reached(stop: Option<Binding>, press: Binding) -> bool
    ensures { result ≡ is_reached stop press }
{
    stop.is_none_or(|closed| kind_of(press) < kind_of(closed))
}

fn is_taken(
    surfaces: SurfaceTable,
    view: GenerationalHandle,
    stop: Option<Binding>,
    press: Binding,
) -> bool
    ensures { result ≡ is_taken surfaces view stop press }
{
    is_reached(stop, press) && surfaces.descriptor(press.surface).view == view
}

impl PlatformInputRouter {
    // Ends the presses of a view's panels, kind by kind, up to a press whose panel is closed.
    #[tactic(auto, unfolding(crate::specs::ViewReleases::release_view))]
    pub fn release_view(self, surfaces: SurfaceTable, view: GenerationalHandle) -> ViewReleased
        ensures { result ≡ release_view self surfaces view }
    {
        let stop = first_closed(self.bindings.entries(), surfaces);
        let taken = self
            .bindings
            .retain(|press| is_taken(surfaces, view, stop, *press));
        let left = self
            .bindings
            .retain(|press| !is_taken(surfaces, view, stop, *press));
        ViewReleased {
            outcome: closed_refusal(surfaces, stop).and(Ok(taken)),
            router: self.with_bindings(left),
        }
    }
}
