// The counter, the registry and the router as objects of the host, altered in place by each call. Each entry is the
// by-value call with its state lent.

#![tactic(auto)]

pub mod router;
pub mod step;
