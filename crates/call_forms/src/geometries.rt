// The numbers of transforms and geometries, which two calls have at different places.
ghost use Rattle.std.specs.Prelude.{◌≡◌};
ghost use Rattle.call_numbers.specs.Geometries.{transform_numbers, geometry_numbers};

use call_fields::groups::rect_numbers;
use call_fields::numbered::Numbered;
use geometry::surface::SurfaceGeometry;
use geometry::transform::SurfaceTransform;

pub fn transform_numbers(t: SurfaceTransform) -> [u64; 6]
    ensures { result ≡ transform_numbers t }
{
    [
        t.m11_q16.number(),
        t.m12_q16.number(),
        t.m21_q16.number(),
        t.m22_q16.number(),
        t.translate_x_milli.number(),
        t.translate_y_milli.number(),
    ]
}

pub fn geometry_numbers(g: SurfaceGeometry) -> [u64; 18]
    ensures { result ≡ geometry_numbers g }
{
    let bounds = rect_numbers(g.bounds);
    let clip = rect_numbers(g.clip);
    let [m11, m12, m21, m22, x, y] = transform_numbers(g.transform);
    [
        bounds.present,
        bounds.x_milli,
        bounds.y_milli,
        bounds.width_milli,
        bounds.height_milli,
        clip.present,
        clip.x_milli,
        clip.y_milli,
        clip.width_milli,
        clip.height_milli,
        m11,
        m12,
        m21,
        m22,
        x,
        y,
        g.opacity_q16.number(),
        g.hit_test_enabled.number(),
    ]
}
