//! Bearings, and how a turn bends.

ghost use Rattle.std.specs.Prelude.{◌≡◌, ◌^◌, ◌<◌, ◌≤◌, min, max, nat_le, unsigned_abs};
ghost use Rattle.geo_integer.specs.Bearing.{angle_of, bearing_of, bend_of, modifier_of, tilt_of};
ghost use Rattle.geo_integer.specs.Position.{position_of};

use crate::lengths::{Stride, middle_cosine, stride_between};
use road_base::{Modifier, Point};

/// The bearing from `a` to `b` in whole degrees clockwise from north, below 360; 0 where the two are
/// one point.
pub fn bearing(a: Point, b: Point) -> u32
    ensures value { result ≡ bearing_of (position_of a) (position_of b) }
    ensures bound { result < 360 }
{
    let Stride { east, north } = stride_between(a, b, middle_cosine(a, b));
    let minor = east.unsigned_abs().min(north.unsigned_abs());
    let major = east.unsigned_abs().max(north.unsigned_abs());
    (angle(east, north, tilt(minor, major)) + 500) / 1000 % 360
}

// The angle between a direction and the axis nearest to it in thousandths of a degree, at most 45
// degrees, from the smaller and the greater part of the direction.
fn tilt(minor: u64, major: u64) -> u32
    requires ordered { minor ≤ major }
    requires small { major < 2 ^ 50 }
    ensures value { result ≡ tilt_of minor major }
    ensures bound { result ≤ 45000 }
{
    if major == 0 {
        return 0;
    }
    let (minor, major) = (u128::from(minor), u128::from(major));
    ((45000 * minor * major + 15640 * minor * (major - minor)) / (major * major)) as u32
}

// The angle of a direction clockwise from north in thousandths of a degree, from its tilt.
fn angle(east: i64, north: i64, tilt: u32) -> u32
    requires { tilt ≤ 45000 }
    ensures value { result ≡ angle_of (nat_le (unsigned_abs east) (unsigned_abs north)) east north tilt }
    ensures bound { result ≤ 360000 }
{
    let steep = east.unsigned_abs() <= north.unsigned_abs();
    match (steep, east >= 0, north >= 0) {
        (true, true, true) => tilt,
        (true, false, true) => 360_000 - tilt,
        (true, true, false) => 180_000 - tilt,
        (true, false, false) => 180_000 + tilt,
        (false, true, true) => 90_000 - tilt,
        (false, true, false) => 90_000 + tilt,
        (false, false, true) => 270_000 + tilt,
        (false, false, false) => 270_000 - tilt,
    }
}

/// How a turn bends that comes in by one bearing and leaves by another, both in whole degrees. A turn
/// back onto the same segment is a u-turn whatever the bearings are.
pub fn modifier(before: u32, after: u32, back: bool) -> Modifier
    requires before_in_range { before < 360 }
    requires after_in_range { after < 360 }
    ensures { result ≡ modifier_of before after back }
{
    if back {
        return Modifier::Uturn;
    }
    match (after + 360 - before) % 360 {
        0..=20 => Modifier::Straight,
        21..=40 => Modifier::SlightRight,
        41..=120 => Modifier::Right,
        121..=179 => Modifier::SharpRight,
        180 => Modifier::Uturn,
        181..=239 => Modifier::SharpLeft,
        240..=319 => Modifier::Left,
        320..=339 => Modifier::SlightLeft,
        _ => Modifier::Straight,
    }
}
