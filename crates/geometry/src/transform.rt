ghost use Rattle.std.specs.Prelude.{◌≡◌};
ghost use Rattle.geometry.specs.Transform.{difference, identity, inverse_point, is_under_epsilon, matrix_entry, solved};

use crate::rounding::round_i32;

// 2 to the power of -52, as Rust's f64::EPSILON.
const EPSILON: f64 = 2.220446049250313e-16;

// A matrix in 65,536ths, and a translation in thousandths.
#[repr(C)]
#[derive(Clone, Copy, PartialEq, Eq)]
pub struct SurfaceTransform {
    pub m11_q16: i32,
    pub m12_q16: i32,
    pub m21_q16: i32,
    pub m22_q16: i32,
    pub translate_x_milli: i32,
    pub translate_y_milli: i32,
}

// A point in a panel's own coordinates, in thousandths.
#[derive(Clone, Copy, PartialEq, Eq)]
pub struct Point {
    pub x_milli: i32,
    pub y_milli: i32,
}

// A matrix entry as a number.
fn matrix_entry(m_q16: i32) -> f64
    ensures { result ≡ matrix_entry m_q16 }
{
    (m_q16 as f64) / 65536.0
}

// A coordinate less the translation.
fn difference(at_milli: i32, translate_milli: i32) -> f64
    ensures { result ≡ difference at_milli translate_milli }
{
    (at_milli as f64) - (translate_milli as f64)
}

// Whether the determinant's size is under 2^-52.
fn is_under_epsilon(determinant: f64) -> bool
    ensures { result ≡ is_under_epsilon determinant }
{
    determinant < EPSILON && determinant > -EPSILON
}

// The inverse of the matrix at the point, each step rounded once.
#[tactic(auto, unfolding(crate::specs::Transform::solved))]
fn solve(m11: f64, m12: f64, m21: f64, m22: f64, x: f64, y: f64) -> Option<Point>
    ensures { result ≡ solved m11 m12 m21 m22 x y }
{
    let determinant = m11 * m22 - m12 * m21;
    if is_under_epsilon(determinant) {
        return None;
    }
    let x_milli = round_i32((m22 * x - m21 * y) / determinant)?;
    let y_milli = round_i32((-m12 * x + m11 * y) / determinant)?;
    Some(Point { x_milli, y_milli })
}

impl Default for SurfaceTransform {
    // The identity matrix and no translation.
    fn default() -> Self
        ensures { result ≡ identity }
    {
        Self {
            m11_q16: 65536,
            m12_q16: 0,
            m21_q16: 0,
            m22_q16: 65536,
            translate_x_milli: 0,
            translate_y_milli: 0,
        }
    }
}

impl SurfaceTransform {
    // Where the view's point lies in the panel.
    pub fn inverse_point(self, x_milli: i32, y_milli: i32) -> Option<Point>
        ensures { result ≡ inverse_point self x_milli y_milli }
    {
        let m11 = matrix_entry(self.m11_q16);
        let m12 = matrix_entry(self.m12_q16);
        let m21 = matrix_entry(self.m21_q16);
        let m22 = matrix_entry(self.m22_q16);
        let x = difference(x_milli, self.translate_x_milli);
        let y = difference(y_milli, self.translate_y_milli);
        solve(m11, m12, m21, m22, x, y)
    }
}
