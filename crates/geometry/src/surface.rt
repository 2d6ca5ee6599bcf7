ghost use Rattle.std.specs.Prelude.{◌≡◌};
ghost use Rattle.geometry.specs.Surface.{allows, default_geometry, has_zero_side, integer_determinant, is_hit, is_valid_geometry, is_zero, lies_inside};

use crate::rect::SurfaceRect;
use crate::transform::{Point, SurfaceTransform};

// Where a panel lies in its view. Without bounds it fills the view; bounds and clip are in the panel's own coordinates.
#[derive(Clone, Copy, PartialEq, Eq)]
pub struct SurfaceGeometry {
    pub bounds: Option<SurfaceRect>,
    pub clip: Option<SurfaceRect>,
    pub transform: SurfaceTransform,
    pub opacity_q16: u16,
    pub hit_test_enabled: bool,
}

// Whether the point lies in a rectangle that may be absent.
fn is_allowed(rect: Option<SurfaceRect>, point: Point) -> bool
    ensures { result ≡ allows rect point }
{
    rect.is_none_or(|present| present.contains(point.x_milli, point.y_milli))
}

// Whether there is a local point, and it lies in the bounds and the clip.
fn is_inside(bounds: Option<SurfaceRect>, clip: Option<SurfaceRect>, local: Option<Point>) -> bool
    ensures { result ≡ lies_inside bounds clip local }
{
    local.is_some_and(|point| is_allowed(bounds, point) && is_allowed(clip, point))
}

// Whether a rectangle is present and has a side of 0.
fn has_zero_side(rect: Option<SurfaceRect>) -> bool
    ensures { result ≡ has_zero_side rect }
{
    rect.is_some_and(|present| present.is_empty())
}

// Whether the matrix's determinant, worked out in whole numbers, is 0.
fn is_singular(transform: SurfaceTransform) -> bool
    ensures { result ≡ is_zero (integer_determinant transform) }
{
    let determinant = (transform.m11_q16 as i64) * (transform.m22_q16 as i64)
        - (transform.m12_q16 as i64) * (transform.m21_q16 as i64);
    determinant == 0
}

// Whether the geometry is accepted; false is refusal 13.
#[tactic(auto, unfolding(crate::specs::Surface::is_valid_geometry))]
pub fn validate_geometry(geometry: SurfaceGeometry) -> bool
    ensures { result ≡ is_valid_geometry geometry }
{
    !has_zero_side(geometry.bounds)
        && !has_zero_side(geometry.clip)
        && !is_singular(geometry.transform)
}

impl Default for SurfaceGeometry {
    // A panel that fills its view, opaque and open to hit tests.
    fn default() -> Self
        ensures { result ≡ default_geometry }
    {
        Self {
            bounds: None,
            clip: None,
            transform: SurfaceTransform::default(),
            opacity_q16: 65535,
            hit_test_enabled: true,
        }
    }
}

impl SurfaceGeometry {
    // Whether the view's point hits the panel.
    #[tactic(auto, unfolding(crate::specs::Surface::is_hit))]
    pub fn is_hit(self, x_milli: i32, y_milli: i32) -> bool
        ensures { result ≡ is_hit self x_milli y_milli }
    {
        self.hit_test_enabled
            && is_inside(
                self.bounds,
                self.clip,
                self.transform.inverse_point(x_milli, y_milli),
            )
    }
}
