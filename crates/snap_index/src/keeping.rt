//! Whether a segment passes a filter.

ghost use Rattle.std.specs.Prelude.{◌+◌, ◌*◌, ◌<◌, ◌≤◌, ◌↔◌, ◌^◌, IsTrue, length};
ghost use Rattle.geo_integer.specs.Position.{position_of};
ghost use Rattle.snap_index.specs.Kept.{DifferAtMost, HasDirection, IsHeaded, IsInReach, IsOpenAlong, bearing_along, decimetres_between};

use crate::filters::Heading;
use crate::grids::SegmentEnds;
use geo_integer::{bearing, distance};
use metric_make::BaseMetric;
use road_base::Point;

// Whether a segment may be driven along in some direction that has the heading.
pub(crate) fn has_direction(
    base: &BaseMetric,
    heading: Option<Heading>,
    line: SegmentEnds,
    segment: u32,
) -> bool
    requires few { segment < 2 ^ 30 }
    requires in_range { 2 * segment + 1 < length base.now.weights.vertex }
    ensures { IsTrue result ↔ HasDirection base.now.weights heading segment (position_of line.from) (position_of line.to) }
{
    is_open_along(base, heading, 2 * segment, line.from, line.to)
        || is_open_along(base, heading, 2 * segment + 1, line.to, line.from)
}

// Whether a vertex from `tail` to `head` is open and has the heading.
fn is_open_along(
    base: &BaseMetric,
    heading: Option<Heading>,
    vertex: u32,
    tail: Point,
    head: Point,
) -> bool
    requires { vertex < length base.now.weights.vertex }
    ensures { IsTrue result ↔ IsOpenAlong base.now.weights heading vertex (position_of tail) (position_of head) }
{
    base.vertex(vertex).is_some() && is_headed(heading, tail, head)
}

// Whether the bearing from `tail` to `head` is one of the heading.
#[tactic(auto, unfolding(crate::specs::Kept::bearing_along))]
fn is_headed(heading: Option<Heading>, tail: Point, head: Point) -> bool
    ensures { IsTrue result ↔ IsHeaded heading (bearing_along (position_of tail) (position_of head)) }
{
    match heading {
        None => true,
        Some(Heading { value, range }) => differ_at_most(range, value, bearing(tail, head)),
    }
}

// Whether two bearings differ by at most so many degrees round the circle.
fn differ_at_most(range: u32, a: u32, b: u32) -> bool
    requires { b < 360 }
    ensures { IsTrue result ↔ DifferAtMost range a b }
{
    let clockwise = (b + 360 - a % 360) % 360;
    clockwise <= range || 360 - clockwise <= range
}

// Whether a spot lies at most so many decimetres away.
#[tactic(auto, unfolding(crate::specs::Kept::decimetres_between))]
pub(crate) fn is_in_reach(radius: Option<u64>, from: Point, spot: Point) -> bool
    ensures { IsTrue result ↔ IsInReach radius (decimetres_between (position_of from) (position_of spot)) }
{
    match radius {
        None => true,
        Some(radius) => distance(from, spot) <= radius,
    }
}
