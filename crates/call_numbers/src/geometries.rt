// Geometry, transforms, points and view metrics, by their numbers.

#![tactic(auto, unfolding(crate::specs::Geometries::transform_at, crate::specs::Geometries::geometry_at, crate::specs::Geometries::metrics_at))]

ghost use Rattle.std.specs.Prelude.{◌≡◌};
ghost use Rattle.call_numbers.specs.Geometries.{transform_at, point_at, rect_at, insets_at, geometry_at, metrics_at};

use crate::words::word;
use call_fields::groups::{RectNumbers, rect_of};
use call_fields::numbered::Numbered;
use geometry::metrics::{ViewInsets, ViewMetricsUpdate, ViewVisibility};
use geometry::rect::SurfaceRect;
use geometry::surface::SurfaceGeometry;
use geometry::transform::{Point, SurfaceTransform};

pub fn transform_at(words: [u64; 32], at: u16) -> SurfaceTransform
    ensures { result ≡ transform_at words at }
{
    let i = at as usize;
    SurfaceTransform {
        m11_q16: i32::from_number(word(words, i)),
        m12_q16: i32::from_number(word(words, i + 1)),
        m21_q16: i32::from_number(word(words, i + 2)),
        m22_q16: i32::from_number(word(words, i + 3)),
        translate_x_milli: i32::from_number(word(words, i + 4)),
        translate_y_milli: i32::from_number(word(words, i + 5)),
    }
}

pub fn point_at(words: [u64; 32], at: u8) -> Point
    ensures { result ≡ point_at words at }
{
    let i = at as usize;
    Point {
        x_milli: i32::from_number(word(words, i)),
        y_milli: i32::from_number(word(words, i + 1)),
    }
}

fn rect_at(words: [u64; 32], at: u16) -> Option<SurfaceRect>
    ensures { result ≡ rect_at words at }
{
    let i = at as usize;
    rect_of(RectNumbers {
        present: word(words, i),
        x_milli: word(words, i + 1),
        y_milli: word(words, i + 2),
        width_milli: word(words, i + 3),
        height_milli: word(words, i + 4),
    })
}

// Bounds, clip, transform, opacity, hit testing.
pub fn geometry_at(words: [u64; 32], at: u8) -> SurfaceGeometry
    ensures { result ≡ geometry_at words at }
{
    let i = at as usize;
    SurfaceGeometry {
        bounds: rect_at(words, at as u16),
        clip: rect_at(words, at as u16 + 5),
        transform: transform_at(words, at as u16 + 10),
        opacity_q16: u16::from_number(word(words, i + 16)),
        hit_test_enabled: bool::from_number(word(words, i + 17)),
    }
}

fn insets_at(words: [u64; 32], at: u16) -> ViewInsets
    ensures { result ≡ insets_at words at }
{
    let i = at as usize;
    ViewInsets {
        top_milli: u32::from_number(word(words, i)),
        right_milli: u32::from_number(word(words, i + 1)),
        bottom_milli: u32::from_number(word(words, i + 2)),
        left_milli: u32::from_number(word(words, i + 3)),
    }
}

// Origin, size, framebuffer, scale, insets, visibility.
pub fn metrics_at(words: [u64; 32], at: u8) -> ViewMetricsUpdate
    ensures { result ≡ metrics_at words at }
{
    let i = at as usize;
    ViewMetricsUpdate {
        origin_x_milli: i32::from_number(word(words, i)),
        origin_y_milli: i32::from_number(word(words, i + 1)),
        width_milli: u32::from_number(word(words, i + 2)),
        height_milli: u32::from_number(word(words, i + 3)),
        framebuffer_width: u32::from_number(word(words, i + 4)),
        framebuffer_height: u32::from_number(word(words, i + 5)),
        scale_q16: u32::from_number(word(words, i + 6)),
        safe_area: insets_at(words, at as u16 + 7),
        visibility: ViewVisibility::from_number(word(words, i + 11)),
    }
}
