// The geometry of panels and the metrics of views: rectangles, the inverse transform,
// the hit test of one panel, and the tests behind refusals 13 and 14.

#![tactic(auto)]

pub mod metrics;
pub mod rect;
pub mod rounding;
pub mod surface;
pub mod transform;

ghost use Rattle.geometry.specs.Claims.{GeometryClaims};

// What is claimed of the definitions beside the contracts, with the rows of the counter table that are about geometry.
pub fn geometry_claims()
    ensures { GeometryClaims }
{}
