ghost use Rattle.std.specs.Prelude.{◌≡◌, ◌+◌, nat_lt};
ghost use Rattle.geometry.specs.Metrics.{at_revision, default_metrics, framebuffer_disagrees, is_valid_metrics};

use crate::rect::is_empty;

// Whether a view is shown. Nothing here reads it; it is kept and answered.
#[derive(Clone, Copy, PartialEq, Eq)]
pub enum ViewVisibility {
    Visible,
    Hidden,
    Suspended,
}

// What a view keeps free at each side, in thousandths.
#[repr(C)]
#[derive(Clone, Copy, PartialEq, Eq)]
pub struct ViewInsets {
    pub top_milli: u32,
    pub right_milli: u32,
    pub bottom_milli: u32,
    pub left_milli: u32,
}

// A view's place and size in thousandths, its framebuffer in pixels, and its own revision.
#[derive(Clone, Copy, PartialEq, Eq)]
pub struct ViewMetrics {
    pub revision: u64,
    pub origin_x_milli: i32,
    pub origin_y_milli: i32,
    pub width_milli: u32,
    pub height_milli: u32,
    pub framebuffer_width: u32,
    pub framebuffer_height: u32,
    pub scale_q16: u32,
    pub safe_area: ViewInsets,
    pub visibility: ViewVisibility,
}

// What a caller sets of a view's metrics: all but the revision.
#[derive(Clone, Copy, PartialEq, Eq)]
pub struct ViewMetricsUpdate {
    pub origin_x_milli: i32,
    pub origin_y_milli: i32,
    pub width_milli: u32,
    pub height_milli: u32,
    pub framebuffer_width: u32,
    pub framebuffer_height: u32,
    pub scale_q16: u32,
    pub safe_area: ViewInsets,
    pub visibility: ViewVisibility,
}

// Whether two insets together are wider than the side they lie on; the sum is a u64, so that it does not overflow.
fn is_over(first_milli: u32, second_milli: u32, side_milli: u32) -> bool
    ensures { result ≡ nat_lt side_milli (first_milli + second_milli) }
{
    (first_milli as u64) + (second_milli as u64) > (side_milli as u64)
}

// Whether the framebuffer has a side while the view has no area, or lacks one while it has.
fn framebuffer_disagrees(update: ViewMetricsUpdate) -> bool
    ensures { result ≡ framebuffer_disagrees update }
{
    if is_empty(update.width_milli, update.height_milli) {
        update.framebuffer_width != 0 || update.framebuffer_height != 0
    } else {
        is_empty(update.framebuffer_width, update.framebuffer_height)
    }
}

// Whether the update is accepted; false is refusal 14.
#[tactic(auto, unfolding(crate::specs::Metrics::is_valid_metrics))]
pub fn validate_view_metrics(update: ViewMetricsUpdate) -> bool
    ensures { result ≡ is_valid_metrics update }
{
    update.scale_q16 != 0
        && !is_over(
            update.safe_area.left_milli,
            update.safe_area.right_milli,
            update.width_milli,
        )
        && !is_over(
            update.safe_area.top_milli,
            update.safe_area.bottom_milli,
            update.height_milli,
        )
        && !framebuffer_disagrees(update)
}

impl ViewMetrics {
    // A fresh view's metrics.
    pub const DEFAULT: Self = Self {
        revision: 1,
        origin_x_milli: 0,
        origin_y_milli: 0,
        width_milli: 0,
        height_milli: 0,
        framebuffer_width: 0,
        framebuffer_height: 0,
        scale_q16: 65536,
        safe_area: ViewInsets {
            top_milli: 0,
            right_milli: 0,
            bottom_milli: 0,
            left_milli: 0,
        },
        visibility: ViewVisibility::Hidden,
    };
}

impl Default for ViewMetrics {
    fn default() -> Self
        ensures { result ≡ default_metrics }
    {
        Self::DEFAULT
    }
}

impl ViewMetricsUpdate {
    // The metrics that the update makes, at a revision.
    pub fn at_revision(self, revision: u64) -> ViewMetrics
        ensures { result ≡ at_revision self revision }
    {
        ViewMetrics {
            revision,
            origin_x_milli: self.origin_x_milli,
            origin_y_milli: self.origin_y_milli,
            width_milli: self.width_milli,
            height_milli: self.height_milli,
            framebuffer_width: self.framebuffer_width,
            framebuffer_height: self.framebuffer_height,
            scale_q16: self.scale_q16,
            safe_area: self.safe_area,
            visibility: self.visibility,
        }
    }
}
