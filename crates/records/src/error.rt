// Why a call is refused.
ghost use Rattle.std.specs.Result.{result_and};
ghost use Rattle.std.specs.Prelude.{ℕ, ◌≡◌, is_ok};
ghost use Rattle.records.specs.Errors.{error_number, answer_number, refusal_if, status_refusal};

use handles::arena::SlotStatus;

// The Rust's errors in their declared order, and the two added by the port.
#[derive(Clone, Copy, PartialEq, Eq)]
pub enum CompositionError {
    InvalidConfig = 1,
    InvalidOwner,
    Capacity,
    PerViewCapacity,
    InvalidWindow,
    StaleWindow,
    WindowInUse,
    InvalidView,
    StaleView,
    ViewInUse,
    InvalidSurface,
    StaleSurface,
    InvalidGeometry,
    InvalidMetrics,
    InvalidSurfaceState,
    StaleSurfaceGeneration,
    WrongView,
    NotInteractive,
    TextUnsupported,
    RevisionConflict,
    RevisionExhausted,
    GenerationExhausted,
    PortLimit = 41,
    Damaged,
}

// The answer of a call that has no other.
pub type Outcome = Result<(), CompositionError>;

// An error that has a number in REFUSALS.md.
pub trait Refusal: Copy {
    ghost number_of: { Self → ℕ };

    fn number(self) -> u64
        ensures { result ≡ number_of self };
}

impl Refusal for CompositionError {
    ghost number_of = { error_number };

    fn number(self) -> u64 {
        self as u64
    }
}

pub fn refuse_if<E: Copy>(test: bool, error: E) -> Result<(), E>
    ensures { result ≡ refusal_if test error }
{
    if test { Err(error) } else { Ok(()) }
}

// REFUSALS.md's number of an answer: 0 is accepted.
pub fn number<E: Refusal>(outcome: Result<(), E>) -> u64
    ensures { result ≡ answer_number E.number_of outcome }
{
    match outcome {
        Ok(()) => 0,
        Err(error) => error.number(),
    }
}

// What a handle that is not live refuses.
pub fn refuse_status(
    status: SlotStatus,
    invalid: CompositionError,
    stale: CompositionError,
) -> Outcome
    ensures { result ≡ status_refusal status invalid stale }
{
    match status {
        SlotStatus::Live => Ok(()),
        SlotStatus::Invalid => Err(invalid),
        SlotStatus::Stale => Err(stale),
    }
}
