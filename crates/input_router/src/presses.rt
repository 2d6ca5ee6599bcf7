// The open presses: which panel holds one, whether one more may be opened, and how they are opened, moved and ended.
ghost use Rattle.std.specs.Prelude.{◌≡◌};
ghost use Rattle.input_router.specs.Presses.{held_by, has_room_with, has_room, opened, ended};

use crate::router::PlatformInputRouter;
use handles::GenerationalHandle;
use maps::bindings::Binding;
use maps::keys::BindingKey;

// Whether a press that this panel holds is open already, or one more may be opened.
pub fn has_room_with(holder: Option<GenerationalHandle>, count: usize, limit: u64) -> bool
    ensures { result ≡ has_room_with holder count limit }
{
    holder.is_some() || (count as u64) < limit
}

impl PlatformInputRouter {
    // The panel that holds the press.
    pub fn holder(self, key: BindingKey) -> Option<GenerationalHandle>
        ensures { result ≡ held_by self key }
    {
        self.bindings.get(key)
    }

    // Whether the press is open already, or one more may be opened.
    pub fn has_room(self, key: BindingKey) -> bool
        ensures { result ≡ has_room self key }
    {
        has_room_with(
            self.bindings.get(key),
            self.bindings.count(),
            self.max_active_bindings,
        )
    }

    // The router with the press opened at a panel, or moved to it.
    pub fn opened(self, key: BindingKey, surface: GenerationalHandle) -> Self
        ensures { result ≡ opened self key surface }
    {
        let moved = self.bindings.insert(Binding { key, surface });
        self.with_bindings(moved.unwrap_or(self.bindings))
    }

    pub fn ended(self, key: BindingKey) -> Self
        ensures { result ≡ ended self key }
    {
        self.with_bindings(self.bindings.remove(key))
    }
}
