//! Frames: what lies outside of one is farther away than a search asks for.
//!
//! A frame is made seldom, with a root, and is then compared with many extents, coordinate by coordinate.

ghost use Rattle.std.specs.Prelude.{ℕ, ℤ, ◌+◌, ◌*◌, ◌^◌, ◌<◌, ◌≤◌, ◌≤ℤ◌, ◌<ℤ◌, ◌-ℤ◌, ◌⊎◌, FitsSigned, IsTrue, unsigned_abs};
ghost use Rattle.std.specs.Int.{w32};
ghost use Rattle.geo_integer.specs.Position.{Position, position_of};
ghost use Rattle.snap_index.specs.Index.{IsFrameOf, IsOutside, IsWithin};

use crate::extents::Extent;
use road_base::Point;

/// The frame outside of which nothing lies.
const EVERYWHERE: Extent = Extent {
    west: i32::MIN,
    east: i32::MAX,
    south: i32::MIN,
    north: i32::MAX,
};

// Whether all of an extent lies outside of a frame.
pub(crate) fn is_outside(frame: Extent, extent: Extent) -> bool
    ensures { IsTrue result → (p : Position) → IsWithin extent p → IsOutside frame p }
{
    if is_apart(extent.south, extent.north, frame.south, frame.north) {
        return true;
    }
    is_apart(extent.west, extent.east, frame.west, frame.east)
}

// Whether no coordinate lies both between the first two and between the others.
fn is_apart(low: i32, high: i32, least: i32, greatest: i32) -> bool
    ensures { IsTrue result → (y : ℤ) → low ≤ℤ y → y ≤ℤ high → (y <ℤ least) ⊎ (greatest <ℤ y) }
{
    high < least || greatest < low
}

// A frame outside of which all lies farther away than so remote, if a degree of longitude has no less than this
// cosine half-way to it.
pub(crate) fn frame_of(from: Point, cosine: u32, far: Option<u128>) -> Extent
    ensures { IsFrameOf (position_of from) cosine far result }
{
    let Some(far) = far else {
        return EVERYWHERE;
    };
    let Ok(square) = u64::try_from(far / 0x1_0000_0000) else {
        return EVERYWHERE;
    };
    let north = square.isqrt() as u32;
    let east = longitudes(north, cosine);
    Extent {
        west: below(from.lon, east),
        east: above(from.lon, east),
        south: below(from.lat, north),
        north: above(from.lat, north),
    }
}

// How many microdegrees of longitude, at a cosine, are exceeded only by what is longer than so many of latitude.
fn longitudes(latitudes: u32, cosine: u32) -> u32
    ensures { (n : ℕ) → result < n → n < 2 ^ 32 → (latitudes + 1) * 65536 ≤ n * cosine }
{
    if cosine == 0 {
        return u32::MAX;
    }
    let wide = (u64::from(latitudes) + 1) * 65536 / u64::from(cosine);
    wide.min(u64::from(u32::MAX)) as u32
}

// The coordinate that lies so far below another, or the least one.
fn below(from: i32, gap: u32) -> i32
    ensures { (y : ℤ) → FitsSigned w32 y → y <ℤ result → gap < unsigned_abs (y -ℤ from) }
{
    match i32::try_from(i64::from(from) - i64::from(gap)) {
        Ok(least) => least,
        Err(_) => i32::MIN,
    }
}

// The coordinate that lies so far above another, or the greatest one.
fn above(from: i32, gap: u32) -> i32
    ensures { (y : ℤ) → FitsSigned w32 y → result <ℤ y → gap < unsigned_abs (y -ℤ from) }
{
    match i32::try_from(i64::from(from) + i64::from(gap)) {
        Ok(greatest) => greatest,
        Err(_) => i32::MAX,
    }
}
