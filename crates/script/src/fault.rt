// Why a line is no call: what a reader of the answer `?` wants to know.
ghost use Rattle.script.specs.Faults.{FaultClaims};

#[derive(Clone, Copy, PartialEq, Eq)]
pub enum LineFault {
    LongLine,
    UnknownVerb,
    MalformedNumber,
}

// The fault that a line is refused for is the first thing that is wrong with it.
pub fn fault_claims()
    ensures { FaultClaims }
{}
