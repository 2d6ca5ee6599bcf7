// Why the router refuses an event.
ghost use Rattle.records.specs.Errors.{refusal_if};
ghost use Rattle.std.specs.Result.{result_and};
ghost use Rattle.std.specs.Prelude.{◌≡◌, is_ok};
ghost use Rattle.input_events.specs.RouterErrors.{router_error_number, from_composition};
ghost use Rattle.input_events.specs.declared.error.PlatformInputError.TheVariants.{Composition};

use records::error::{CompositionError, Outcome, Refusal};

// The Rust's errors in their declared order, the two added by the port, and the registry's refusals.
#[derive(Clone, Copy, PartialEq, Eq)]
pub enum PlatformInputError {
    InvalidDevice,
    InvalidSequence,
    InvalidTimestamp,
    InvalidPointer,
    InvalidPressure,
    InvalidTilt,
    InvalidTextSelection,
    InvalidShortcut,
    InvalidWindow,
    Capacity,
    PortLimit,
    Damaged,
    Composition(CompositionError),
}

// The answer of a call on the router that has no other.
pub type RouterOutcome = Result<(), PlatformInputError>;

impl Refusal for PlatformInputError {
    ghost number_of = { router_error_number };

    fn number(self) -> u64 {
        match self {
            PlatformInputError::InvalidDevice => 31,
            PlatformInputError::InvalidSequence => 32,
            PlatformInputError::InvalidTimestamp => 33,
            PlatformInputError::InvalidPointer => 34,
            PlatformInputError::InvalidPressure => 35,
            PlatformInputError::InvalidTilt => 36,
            PlatformInputError::InvalidTextSelection => 37,
            PlatformInputError::InvalidShortcut => 38,
            PlatformInputError::InvalidWindow => 39,
            PlatformInputError::Capacity => 40,
            PlatformInputError::PortLimit => 41,
            PlatformInputError::Damaged => 42,
            PlatformInputError::Composition(inner) => inner.number(),
        }
    }
}

impl From<CompositionError> for PlatformInputError {
    ghost from_gives = { λ inner error. error ≡ Composition inner };

    fn from(inner: CompositionError) -> Self {
        PlatformInputError::Composition(inner)
    }
}

// A refusal of the registry inside the router's.
pub fn from_composition(outcome: Outcome) -> RouterOutcome
    ensures { result ≡ from_composition outcome }
{
    outcome.map_err(PlatformInputError::Composition)
}
