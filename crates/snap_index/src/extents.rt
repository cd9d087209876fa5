//! Extents of lines, and how far they lie away.

ghost use Rattle.std.specs.Prelude.{ℤ, ◌≤◌, ◌≤ℤ◌, ◌-ℤ◌, IsTrue, unsigned_abs};
ghost use Rattle.geo_integer.specs.Position.{position_of};
ghost use Rattle.snap_index.specs.Index.{HasLine, IsBeyond};
ghost use Rattle.snap_index.specs.declared.grids.SegmentEnds.{SegmentEnds};

use crate::grids::SegmentEnds;
use geo_integer::plane;
use road_base::Point;

/// All that lies between two meridians and two parallels, in microdegrees.
#[derive(Clone, Copy)]
pub(crate) struct Extent {
    pub(crate) west: i32,
    pub(crate) east: i32,
    pub(crate) south: i32,
    pub(crate) north: i32,
}

// The lesser of two coordinates.
fn lesser(a: i32, b: i32) -> i32
    ensures first { result ≤ℤ a }
    ensures second { result ≤ℤ b }
{
    a.min(b)
}

// The greater of two coordinates.
fn greater(a: i32, b: i32) -> i32
    ensures first { a ≤ℤ result }
    ensures second { b ≤ℤ result }
{
    a.max(b)
}

// The extent of a line.
pub(crate) fn extent_of(line: SegmentEnds) -> Extent
    ensures { HasLine result line }
{
    Extent {
        west: lesser(line.from.lon, line.to.lon),
        east: greater(line.from.lon, line.to.lon),
        south: lesser(line.from.lat, line.to.lat),
        north: greater(line.from.lat, line.to.lat),
    }
}

// The extent that has all of two others.
pub(crate) fn joined(one: Extent, other: Extent) -> Extent
    ensures first { (line : SegmentEnds) → HasLine one line → HasLine result line }
    ensures second { (line : SegmentEnds) → HasLine other line → HasLine result line }
{
    Extent {
        west: lesser(one.west, other.west),
        east: greater(one.east, other.east),
        south: lesser(one.south, other.south),
        north: greater(one.north, other.north),
    }
}

// Whether all of an extent lies farther away than so remote, if a degree of longitude has no less than this
// cosine half-way to it.
pub(crate) fn is_beyond(from: Point, cosine: u32, far: Option<u128>, extent: Extent) -> bool
    ensures { IsTrue result → IsBeyond (position_of from) cosine far extent }
{
    let Some(far) = far else {
        return false;
    };
    let east = gap_between(from.lon, extent.west, extent.east).min(360_000_000);
    let north = gap_between(from.lat, extent.south, extent.north).min(180_000_000);
    far < plane(i64::from(east), i64::from(north), cosine)
}

// How far a coordinate lies outside of those between two others.
fn gap_between(from: i32, low: i32, high: i32) -> u32
    ensures { (y : ℤ) → low ≤ℤ y → y ≤ℤ high → result ≤ unsigned_abs (y -ℤ from) }
{
    if from < low {
        low.abs_diff(from)
    } else if high < from {
        from.abs_diff(high)
    } else {
        0
    }
}
