//! The nearest place on a straight segment, and the point at a place.

ghost use Rattle.std.specs.Prelude.{◌≡◌, ◌^◌, ◌<◌, ◌≤◌, ◌*ℤ◌, pos, unsigned_abs};
ghost use Rattle.geo_integer.specs.Position.{position_of};
ghost use Rattle.geo_integer.specs.Project.{IsBetween, coordinate_at, part_of, place_of, position_at, scalar_product, share_of};

use crate::lengths::{difference, middle_cosine, plane_distance, stride_between};
use road_base::Point;

/// The place on the segment from `a` to `b` that is nearest to `p`, from 0 at `a` to 1024 at `b`.
pub fn project(p: Point, a: Point, b: Point) -> u32
    ensures place { result ≡ place_of (position_of p) (position_of a) (position_of b) }
    ensures bound { result ≤ 1024 }
{
    share(product(p, a, b), plane_distance(a, b))
}

// The scalar product of the ways from a to b and from a to p, in the plane half-way from a to b.
fn product(p: Point, a: Point, b: Point) -> i128
    ensures { result ≡ scalar_product (position_of p) (position_of a) (position_of b) }
{
    let cosine = middle_cosine(a, b);
    let (to_b, to_p) = (stride_between(a, b, cosine), stride_between(a, p, cosine));
    product_of(to_b.east, to_p.east) + product_of(to_b.north, to_p.north)
}

// The product of two parts of ways.
fn product_of(a: i64, b: i64) -> i128
    requires first { unsigned_abs a ≤ 23592960000000 }
    requires second { unsigned_abs b ≤ 23592960000000 }
    ensures value { result ≡ a *ℤ b }
    ensures bound { unsigned_abs result ≤ 2 ^ 100 }
{
    i128::from(a) * i128::from(b)
}

// How many 1024ths `part` is of `whole`, rounded to the nearest and kept within 0 and 1024.
fn share(part: i128, whole: u128) -> u32
    requires { whole < 2 ^ 100 }
    ensures value { result ≡ share_of part whole }
    ensures bound { result ≤ 1024 }
{
    if part <= 0 || whole == 0 {
        return 0;
    }
    let part = part as u128;
    if part >= whole {
        1024
    } else {
        ((2048 * part + whole) / (2 * whole)) as u32
    }
}

/// The point `at` 1024ths of the way from `a` to `b`, rounded to the nearest microdegree.
pub fn point_at(a: Point, b: Point, at: u32) -> Point
    requires { at ≤ 1024 }
    ensures { position_of result ≡ position_at (position_of a) (position_of b) at }
{
    Point {
        lon: coordinate(a.lon, b.lon, at),
        lat: coordinate(a.lat, b.lat, at),
    }
}

// The coordinate `at` 1024ths of the way from `a` to `b`, which lies between the two.
fn coordinate(a: i32, b: i32, at: u32) -> i32
    requires { at ≤ 1024 }
    ensures value { result ≡ coordinate_at a b at }
    ensures between { IsBetween a b result }
{
    (i64::from(a) + part(difference(a, b), at)) as i32
}

// So many 1024ths of a difference, rounded to the nearest.
fn part(difference: i64, at: u32) -> i64
    requires small { unsigned_abs difference < 2 ^ 32 }
    requires at { at ≤ 1024 }
    ensures value { result ≡ part_of difference at }
    ensures between { IsBetween (pos 0) difference result }
{
    (difference * i64::from(at) + 512).div_euclid(1024)
}
