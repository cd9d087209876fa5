//! Lengths, in a plane laid at the latitude half-way between two points.

ghost use Rattle.std.specs.Prelude.{◌≡◌, ◌^◌, ◌<◌, ◌≤◌, ◌*◌, ◌*ℤ◌, ◌-ℤ◌, pos, unsigned_abs};
ghost use Rattle.geo_integer.specs.Plane.{middle_latitude, cosine_of, plane_of, plane_between, cosine_between, distance_of, length_of, east_of, north_of};
ghost use Rattle.geo_integer.specs.Position.{position_of};

use crate::roots::square_root;
use road_base::Point;

/// The square of 180 degrees in microdegrees.
const HALF_TURN_SQUARED: u128 = 32_400_000_000_000_000;

/// The cosine of a latitude in 65536ths, by Bhaskara's approximation, rounded down: 65536 at the
/// equator, 0 at the poles.
pub fn cosine(lat: i32) -> u32
    requires { unsigned_abs lat ≤ 90000000 }
    ensures value { result ≡ cosine_of lat }
    ensures bound { result ≤ 65536 }
{
    let latitude = u128::from(lat.unsigned_abs());
    let square = latitude * latitude;
    (65536 * (HALF_TURN_SQUARED - 4 * square) / (HALF_TURN_SQUARED + square)) as u32
}

/// The square of a distance in 65536ths of a microdegree of latitude, from its differences of longitude
/// and latitude in microdegrees and a cosine in 65536ths. It serves to compare distances.
pub fn plane(dx: i64, dy: i64, c: u32) -> u128
    requires longitudes { unsigned_abs dx ≤ 360000000 }
    requires latitudes { unsigned_abs dy ≤ 180000000 }
    ensures { result ≡ plane_of dx dy c }
{
    let east = u128::from(dx.unsigned_abs()) * u128::from(c);
    let north = u128::from(dy.unsigned_abs()) * 65536;
    east * east + north * north
}

// The cosine half-way between two points.
pub(crate) fn middle_cosine(a: Point, b: Point) -> u32
    ensures value { result ≡ cosine_between (position_of a) (position_of b) }
    ensures bound { result ≤ 65536 }
{
    cosine(middle(a.lat, b.lat))
}

// The latitude half-way between two, rounded down.
fn middle(a: i32, b: i32) -> i32
    requires first { unsigned_abs a ≤ 90000000 }
    requires second { unsigned_abs b ≤ 90000000 }
    ensures value { result ≡ middle_latitude a b }
    ensures bound { unsigned_abs result ≤ 90000000 }
{
    (a + b).div_euclid(2)
}

// The difference of two coordinates, from a to b.
pub(crate) fn difference(a: i32, b: i32) -> i64
    ensures { result ≡ b -ℤ a }
{
    i64::from(b) - i64::from(a)
}

// The way from one point to another in the plane, in 65536ths of a microdegree of latitude.
#[derive(Clone, Copy)]
pub(crate) struct Stride {
    pub(crate) east: i64,
    pub(crate) north: i64,
}

// The way from a to b, where a degree of longitude is `cosine` 65536ths of one of latitude.
pub(crate) fn stride_between(a: Point, b: Point, cosine: u32) -> Stride
    requires { cosine ≤ 65536 }
    ensures east { result.east ≡ east_of (position_of a) (position_of b) cosine }
    ensures north { result.north ≡ north_of (position_of a) (position_of b) }
    ensures east_bound { unsigned_abs result.east ≤ 23592960000000 }
    ensures north_bound { unsigned_abs result.north ≤ 23592960000000 }
{
    Stride {
        east: scaled(difference(a.lon, b.lon), cosine),
        north: scaled(difference(a.lat, b.lat), 65536),
    }
}

// A difference of two coordinates in 65536ths, shortened by a cosine.
fn scaled(difference: i64, cosine: u32) -> i64
    requires difference { unsigned_abs difference ≤ 360000000 }
    requires cosine { cosine ≤ 65536 }
    ensures value { result ≡ difference *ℤ pos cosine }
    ensures bound { unsigned_abs result ≤ 23592960000000 }
{
    difference * i64::from(cosine)
}

/// The square of the distance of two points in 65536ths of a microdegree of latitude, in the plane half-way
/// between them. It serves to compare distances.
pub fn plane_distance(a: Point, b: Point) -> u128
    ensures value { result ≡ plane_between (position_of a) (position_of b) }
    ensures bound { result < 700000000000000000000000000 }
{
    plane(
        difference(a.lon, b.lon),
        difference(a.lat, b.lat),
        middle_cosine(a, b),
    )
}

/// The distance of two points in decimetres, rounded down.
pub fn distance(a: Point, b: Point) -> u64
    ensures value { result ≡ distance_of (position_of a) (position_of b) }
    ensures bound { result < 2 ^ 29 }
{
    let root = square_root(plane_distance(a, b));
    root * 111_195 / 6_553_600_000
}

/// The length of the road segment between two points in decimetres: their distance, but at least 1.
pub fn length(a: Point, b: Point) -> u64
    ensures value { result ≡ length_of (position_of a) (position_of b) }
    ensures bound { result < 2 ^ 29 }
{
    distance(a, b).max(1)
}
