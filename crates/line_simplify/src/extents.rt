//! Extents of points.

ghost use Rattle.road_base.specs.declared.coordinates.Point.{Point};
ghost use Rattle.line_simplify.specs.Blocks.{HasPoint};

use crate::tolerances::{lower_corner, upper_corner};
use road_base::Point;

/// All that lies between the meridians and the parallels of two corners, the southern and western one first.
#[derive(Clone, Copy)]
pub(crate) struct Extent {
    pub(crate) low: Point,
    pub(crate) high: Point,
}

// The extent of one point.
pub(crate) fn extent_of(point: Point) -> Extent
    ensures { HasPoint result point }
{
    Extent {
        low: point,
        high: point,
    }
}

// The extent that has all of two others.
pub(crate) fn joined(one: Extent, other: Extent) -> Extent
    ensures first { (p : Point) → HasPoint one p → HasPoint result p }
    ensures second { (p : Point) → HasPoint other p → HasPoint result p }
{
    Extent {
        low: lower_corner(one.low, other.low),
        high: upper_corner(one.high, other.high),
    }
}
