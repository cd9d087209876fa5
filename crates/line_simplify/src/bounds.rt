//! How far off a line what lies within an extent may be.
//!
//! As a point goes on along one axis, its nearest place goes the same way, but no faster than it does, if both are
//! not rounded. So the way from a point to its place is the longest, along either axis, from one of two corners of
//! the extent that lie on either side of the line. Rounding adds a 1024th of the line's width or height.

ghost use Rattle.std.specs.Prelude.{◌≡◌, ◌≤◌, ◌-ℤ◌, ◌+◌, ◌/◌, unsigned_abs};
ghost use Rattle.geo_integer.specs.Plane.{cosine_between};
ghost use Rattle.geo_integer.specs.Position.{Position, position_of};
ghost use Rattle.road_base.specs.declared.coordinates.Point.{Point};
ghost use Rattle.line_simplify.specs.Blocks.{HasPoint};
ghost use Rattle.line_simplify.specs.Bounds.{AreOutermost, IsGapOf};
ghost use Rattle.line_simplify.specs.Simplified.{offset_of};

use crate::extents::Extent;
use geo_integer::{cosine, plane, point_at, project};
use road_base::Point;

/// The square of a distance that no point has from a line.
pub(crate) const FARTHEST: u128 = 700_000_000_000_000_000_000_000_000;

/// The straight line between two points that stay.
#[derive(Clone, Copy)]
pub(crate) struct Chord {
    pub(crate) from: Point,
    pub(crate) to: Point,
}

// How far apart two points lie along either axis, in microdegrees.
#[derive(Clone, Copy)]
struct Gap {
    east: u32,
    north: u32,
}

// What no square of a distance of a point of this extent from the line is above.
pub(crate) fn most_within(line: Chord, extent: Extent) -> u128
    ensures { (p : Point) → HasPoint extent p → offset_of line.from line.to p ≤ result }
{
    let (one, other) = outermost(line, extent);
    let (one, other) = (gap_of(line, one), gap_of(line, other));
    let east = one.east.max(other.east) + slack(line.from.lon, line.to.lon);
    let north = one.north.max(other.north) + slack(line.from.lat, line.to.lat);
    let cosine = greatest_cosine(extent, north);
    plane(
        i64::from(east.min(360_000_000)),
        i64::from(north.min(180_000_000)),
        cosine,
    )
}

// The corners of an extent that lie farthest off on either side of a line, the western one first.
fn outermost(line: Chord, extent: Extent) -> (Point, Point)
    ensures { AreOutermost line extent result.0 result.1 }
{
    if (line.from.lon <= line.to.lon) == (line.from.lat <= line.to.lat) {
        let north_west = Point {
            lon: extent.low.lon,
            lat: extent.high.lat,
        };
        let south_east = Point {
            lon: extent.high.lon,
            lat: extent.low.lat,
        };
        (north_west, south_east)
    } else {
        (extent.low, extent.high)
    }
}

// How far a point lies from its nearest place on a line.
fn gap_of(line: Chord, point: Point) -> Gap
    ensures value { IsGapOf line point result }
    ensures east_bound { result.east ≤ 360000000 }
    ensures north_bound { result.north ≤ 180000000 }
{
    let spot = point_at(line.from, line.to, project(point, line.from, line.to));
    Gap {
        east: spot.lon.abs_diff(point.lon),
        north: spot.lat.abs_diff(point.lat),
    }
}

// By how much rounding can move a place along one axis: a 1024th of the way along it, and one more.
fn slack(from: i32, to: i32) -> u32
    ensures value { result ≡ (unsigned_abs (to -ℤ from) + 1023) / 1024 }
    ensures bound { result ≤ 4194304 }
{
    to.abs_diff(from).div_ceil(1024)
}

// The greatest cosine half-way from a point of an extent to one that is no farther north or south than so much.
fn greatest_cosine(extent: Extent, width: u32) -> u32
    requires { width ≤ 1000000000 }
    ensures value { (p : Point) (spot : Position) → HasPoint extent p → unsigned_abs (spot.lat -ℤ p.lat) ≤ width → cosine_between (position_of p) spot ≤ result }
    ensures bound { result ≤ 65536 }
{
    let half = width.div_ceil(2) as i32;
    let least = if extent.low.lat > half {
        extent.low.lat - half
    } else if extent.high.lat < -half {
        -half - extent.high.lat
    } else {
        0
    };
    cosine(least)
}
