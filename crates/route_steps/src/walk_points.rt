//! The points of a walk.

ghost use Rattle.std.specs.Prelude.{◌≡◌, ◌*◌, ◌<◌, ◌++◌, All, IfOk, OnOk, length};
ghost use Rattle.std.specs.List.{filter_map};
ghost use Rattle.road_places.specs.Places.{IsPlaceOn};
ghost use Rattle.route_steps.specs.Points.{IsWalkOn, end_of, points_along};

use edge_graph::Network;
use road_base::{Place, Point, Points};
use std::alloc::{AllocError, Global};

/// The points of a permitted walk from one place to another: that at the first place, the end of each vertex
/// but the last, and that at the last place. It answers an error only where memory runs out.
pub fn leg_points(
    alloc: Global,
    network: &Network,
    walk: &[u32],
    from: Place,
    to: Place,
) -> Result<Points, AllocError>
    requires walk { IsWalkOn network.now from to walk.now }
    requires from { IsPlaceOn network.now from }
    requires to { IsPlaceOn network.now to }
    ensures { IfOk result (λ points. points ≡ points_along network.now.segments from to walk.now) }
{
    // tells a proof that all turns are in range
    let _turns = network.graph();
    let mut points = Vec::with_capacity(alloc, walk.len() + 1)?;
    points.push(network.point(from))?;
    push_ends(&mut points, network, &walk[..walk.len() - 1])?;
    points.push(network.point(to))?;
    Ok(Points::of(points))
}

// The point where a vertex ends.
fn end_of(network: &Network, v: u32) -> Point
    requires { v < 2 * length network.now.segments }
    ensures { end_of network.now.segments v ≡ Some result }
{
    let (from, to) = network.ends(v / 2);
    if v % 2 == 0 { to } else { from }
}

// Adds the ends of these vertices.
fn push_ends(points: &mut Vec<Point>, network: &Network, vertices: &[u32]) -> Result<(), AllocError>
    requires { All (λ v. v < 2 * length network.now.segments) vertices.now }
    ensures { OnOk result (points.new.items ≡ points.old.items ++ filter_map (end_of network.now.segments) vertices.now) }
{
    for v in vertices {
        points.push(end_of(network, *v))?;
    }
    Ok(())
}
