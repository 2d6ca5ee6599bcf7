ghost use Rattle.std.specs.Prelude.{◌≡◌, pos};
ghost use Rattle.geometry.specs.Rect.{contains, is_empty, spans};

// A rectangle in thousandths, whose corner may be negative.
#[repr(C)]
#[derive(Clone, Copy, PartialEq, Eq)]
pub struct SurfaceRect {
    pub x_milli: i32,
    pub y_milli: i32,
    pub width_milli: u32,
    pub height_milli: u32,
}

// Whether a coordinate lies from the start on and before the end; the edges are i64, so that no sum overflows.
fn is_spanned(start_milli: i32, size_milli: u32, at_milli: i32) -> bool
    ensures { result ≡ spans start_milli (pos size_milli) at_milli }
{
    let start = start_milli as i64;
    let end = start + (size_milli as i64);
    let at = at_milli as i64;
    at >= start && at < end
}

// Whether a size has a side of 0.
pub fn is_empty(width: u32, height: u32) -> bool
    ensures { result ≡ is_empty width height }
{
    width == 0 || height == 0
}

impl SurfaceRect {
    // Whether a side is 0.
    pub fn is_empty(self) -> bool
        ensures { result ≡ is_empty self.width_milli self.height_milli }
    {
        is_empty(self.width_milli, self.height_milli)
    }

    // Whether the point lies in the rectangle; the right and bottom edges do not.
    pub fn contains(self, x_milli: i32, y_milli: i32) -> bool
        ensures { result ≡ contains self x_milli y_milli }
    {
        is_spanned(self.x_milli, self.width_milli, x_milli)
            && is_spanned(self.y_milli, self.height_milli, y_milli)
    }
}
