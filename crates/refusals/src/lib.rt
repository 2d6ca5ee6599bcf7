// What a refusal has written, claimed of every call on every counter.

#![tactic(auto)]

ghost use Rattle.refusals.specs.Refusals.{StepRefusals};

// A refused call leaves registry and router as they came, but for the cases of RULES.md, What a refusal has written, as
// a theorem that the check names.
pub fn step_refusals()
    ensures { StepRefusals }
{}
