// The router: one value that holds the open presses, the last sequence number of each known device and the last time.
ghost use Rattle.std.specs.Prelude.{◌≡◌, length};
ghost use Rattle.input_router.specs.Router.{start_outcome, empty_router, started, with_bindings, with_sequences, with_timestamp, presses_of};

use input_events::error::{PlatformInputError, RouterOutcome};
use maps::bindings::Bindings;
use maps::sequences::DeviceSequences;
use records::error::refuse_if;

// The presses of all three kinds stand in one table, whose order is the order of releases.
#[derive(Clone, Copy)]
pub struct PlatformInputRouter {
    pub max_active_bindings: u64,
    pub last_timestamp_micros: u64,
    pub device_sequences: DeviceSequences,
    pub bindings: Bindings,
}

// The answer of a start. No Result: a refused start leaves a router too, damaged, which every call refuses.
#[derive(Clone, Copy)]
pub struct RouterStart {
    pub outcome: RouterOutcome,
    pub router: PlatformInputRouter,
}

// What a start with this limit answers.
pub fn start_outcome(max_active_bindings: u64) -> RouterOutcome
    ensures { result ≡ start_outcome max_active_bindings }
{
    refuse_if(max_active_bindings == 0, PlatformInputError::Capacity)?;
    refuse_if(128 < max_active_bindings, PlatformInputError::PortLimit)
}

impl PlatformInputRouter {
    pub fn empty(max_active_bindings: u64) -> Self
        ensures { result ≡ empty_router max_active_bindings }
    {
        Self {
            max_active_bindings,
            last_timestamp_micros: 0,
            device_sequences: DeviceSequences::new(),
            bindings: Bindings::new(),
        }
    }

    // A router without presses that holds at most so many.
    pub fn new(max_active_bindings: u64) -> RouterStart
        ensures { result ≡ started max_active_bindings }
    {
        let outcome = start_outcome(max_active_bindings);
        let limit = if outcome.is_ok() {
            max_active_bindings
        } else {
            0
        };
        RouterStart {
            outcome,
            router: PlatformInputRouter::empty(limit),
        }
    }

    pub fn with_bindings(self, bindings: Bindings) -> Self
        ensures { result ≡ with_bindings bindings self }
    {
        Self { bindings, ..self }
    }

    pub fn with_sequences(self, device_sequences: DeviceSequences) -> Self
        ensures { result ≡ with_sequences device_sequences self }
    {
        Self {
            device_sequences,
            ..self
        }
    }

    pub fn with_timestamp(self, timestamp_micros: u64) -> Self
        ensures { result ≡ with_timestamp timestamp_micros self }
    {
        Self {
            last_timestamp_micros: timestamp_micros,
            ..self
        }
    }

    // How many presses are open.
    pub fn active_binding_count(self) -> usize
        ensures { result ≡ length (presses_of self) }
    {
        self.bindings.count()
    }
}
