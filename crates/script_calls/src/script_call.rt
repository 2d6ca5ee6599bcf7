// What a line of a script asks for.
use calls::call::{Call, Lists};
use composition_state::registry::CompositionLimits;
use handles::GenerationalHandle;

// The arguments of `new` and `new_at`; `new` starts at revision 0 and generation 1.
#[derive(Clone, Copy)]
pub struct Start {
    pub session: GenerationalHandle,
    pub session_epoch: u64,
    pub limits: CompositionLimits,
    pub first_revision: u64,
    pub first_generation: u32,
}

// The script's own calls. `Router` has the new router's limit, and `State` and `RouterState` ask for the dumps.
#[derive(Clone, Copy)]
pub enum SessionCall {
    Digest(bool),
    New(Start),
    Router(u64),
    State,
    RouterState,
}

// `Step` is a call on the registry and the router that stand, with the lists beside it.
#[derive(Clone, Copy)]
pub enum ScriptCall {
    Session(SessionCall),
    Step(Call, Lists),
}
