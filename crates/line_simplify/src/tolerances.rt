//! How coarse a whole line may be.

ghost use Rattle.std.specs.Prelude.{◌≡◌, ◌≤◌, ◌-ℤ◌, max, unsigned_abs};
ghost use Rattle.std.specs.Int.{int_max, int_min};
ghost use Rattle.line_simplify.specs.Simplified.{tolerance_of};

use road_base::Point;

/// The tolerance with which a whole line is simplified to be seen at once: a 512th of the greater of its width
/// and its height in microdegrees, rounded down; 0 of no points.
pub fn tolerance_of(points: &[Point]) -> u32
    ensures value { result ≡ tolerance_of points.now }
    ensures bound { result ≤ 703125 }
{
    let Some((first, more)) = points.split_first() else {
        return 0;
    };
    let mut low = *first;
    let mut high = *first;
    for point in more {
        low = lower_corner(low, *point);
        high = upper_corner(high, *point);
    }
    extent(low, high) / 512
}

// The southern and western end of two points.
pub(crate) fn lower_corner(a: Point, b: Point) -> Point
    ensures lon { result.lon ≡ int_min a.lon b.lon }
    ensures lat { result.lat ≡ int_min a.lat b.lat }
{
    Point {
        lon: a.lon.min(b.lon),
        lat: a.lat.min(b.lat),
    }
}

// The northern and eastern end of two points.
pub(crate) fn upper_corner(a: Point, b: Point) -> Point
    ensures lon { result.lon ≡ int_max a.lon b.lon }
    ensures lat { result.lat ≡ int_max a.lat b.lat }
{
    Point {
        lon: a.lon.max(b.lon),
        lat: a.lat.max(b.lat),
    }
}

// The greater of the width and the height between two corners.
fn extent(low: Point, high: Point) -> u32
    ensures value { result ≡ max (unsigned_abs (high.lon -ℤ low.lon)) (unsigned_abs (high.lat -ℤ low.lat)) }
    ensures bound { result ≤ 360000000 }
{
    let width = high.lon.abs_diff(low.lon);
    let height = high.lat.abs_diff(low.lat);
    width.max(height)
}
