// Windows: create and close.
ghost use Rattle.std.specs.Prelude.{◌≡◌, ◌<◌};
ghost use Rattle.composition_panels.specs.Windows.{create_window_refusal, create_window, stands_in, is_window_in_use, close_window_refusal, close_window};

use crate::answer::{Created, refuse_exhausted};
use composition_state::registry::{Answered, Changed, CompositionRegistry, window_refusal};
use handles::GenerationalHandle;
use handles::arena::{allocate, release, slot_at};
use records::error::{CompositionError, Outcome, refuse_if};
use records::view::ViewTable;

fn create_window_refusal(registry: CompositionRegistry) -> Outcome
    ensures { result ≡ create_window_refusal registry }
{
    registry.damage()?;
    let live = registry.windows.live as u64;
    refuse_if(
        live == registry.limits.max_windows,
        CompositionError::Capacity,
    )
}

// A new window.
#[tactic(auto, unfolding(crate::specs::Windows::create_window))]
pub fn create_window(registry: CompositionRegistry) -> Created
    ensures { result ≡ create_window registry }
{
    let refusal = create_window_refusal(registry);
    let made = allocate(registry.windows, registry.first_generation);
    Answered::with(
        made.handle,
        registry.settle(refusal, registry.with_windows(made.arena)),
    )
}

// Whether the slot holds a live view that stands in the window.
fn stands_in(views: ViewTable, window: GenerationalHandle, i: usize) -> bool
    requires { i < 16 }
    ensures { result ≡ stands_in views window i }
{
    let slot = slot_at(views.arena.slots, i);
    let view = GenerationalHandle {
        index: i as u32,
        generation: slot.generation,
    };
    slot.filled && views.record(view).window == window
}

#[tactic(auto, unfolding(crate::specs::Windows::is_window_in_use))]
fn is_window_in_use(views: ViewTable, window: GenerationalHandle) -> bool
    ensures { result ≡ is_window_in_use views window }
{
    for i in 0..views.slots() {
        if stands_in(views, window, i) {
            return true;
        }
    }
    false
}

fn close_window_refusal(registry: CompositionRegistry, window: GenerationalHandle) -> Outcome
    ensures { result ≡ close_window_refusal registry window }
{
    registry.damage()?;
    window_refusal(registry.windows, window)?;
    refuse_if(
        is_window_in_use(registry.views, window),
        CompositionError::WindowInUse,
    )?;
    refuse_exhausted(release(registry.windows, window).outcome)
}

// A window without views ends.
#[tactic(auto, unfolding(crate::specs::Windows::close_window))]
pub fn close_window(registry: CompositionRegistry, window: GenerationalHandle) -> Changed
    ensures { result ≡ close_window registry window }
{
    let refusal = close_window_refusal(registry, window);
    let windows = release(registry.windows, window).arena;
    registry.settle(refusal, registry.with_windows(windows))
}
