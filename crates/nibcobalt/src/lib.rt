// The library that a host links, by its exports in the crate `nibcobalt_c`: each function of `entries` works on a
// counter in the host's own memory, altered in place, over a function that takes the memory and what a host hands in by
// value.

#![tactic(auto)]

pub mod any_call;
pub mod direct_route;
pub mod entries;
pub mod fresh;
pub mod status;

ghost use Rattle.nibcobalt.specs.Claims.{HostClaims};

// The claims about the library's functions, as a theorem that the check names.
pub fn host_claims()
    ensures { HostClaims }
{}
