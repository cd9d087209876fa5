//! Where the vertices of a network's searched graph lie.

ghost use Rattle.std.specs.Prelude.{◌≡◌, IfOk, map};
ghost use Rattle.customized.specs.Framing.{midpoint_between, midpoint_of, midpoints_of};
ghost use Rattle.edge_graph.specs.NetworkView.{vertices_of};

use edge_graph::Network;
use road_base::Point;
use std::alloc::{AllocError, Global};

// The sum of two points, longitude first.
fn midpoint(from: Point, to: Point) -> (i32, i32)
    ensures { result ≡ midpoint_between from to }
{
    (from.lon + to.lon, from.lat + to.lat)
}

// The midpoint of each vertex of the network, in a list with room for those of the searched graph.
fn ordinary_midpoints(alloc: Global, network: &Network) -> Result<Vec<(i32, i32)>, AllocError>
    ensures { IfOk result (λ midpoints. midpoints.items ≡ map midpoint_of (vertices_of network.now)) }
{
    let mut midpoints = Vec::with_capacity(alloc, network.graph().vertices() as usize)?;
    for s in 0..network.segments() {
        let (from, to) = network.ends(s);
        midpoints.push(midpoint(from, to))?;
        midpoints.push(midpoint(to, from))?;
    }
    Ok(midpoints)
}

/// The midpoint of each vertex of the searched graph: a copy lies where its vertex does.
pub(crate) fn midpoints(alloc: Global, network: &Network) -> Result<Vec<(i32, i32)>, AllocError>
    ensures { IfOk result (λ midpoints. midpoints.items ≡ midpoints_of network.now) }
{
    let mut midpoints = ordinary_midpoints(alloc, network)?;
    for copy in 2 * network.segments()..network.graph().vertices() {
        let vertex = network.stands_for(copy);
        midpoints.push(midpoints[vertex as usize])?;
    }
    Ok(midpoints)
}
