//! What leaves the node between two vertices of a walk.

ghost use Rattle.std.specs.Prelude.{◌≡◌, ℕ, ◌==◌, ◌*◌, ◌^◌, ◌<◌, All, IfOk, length, map, option_map, position};
ghost use Rattle.std.specs.List.{list_any};
ghost use Rattle.std.specs.List.Sorted.{IsNonDecreasing};
ghost use Rattle.route_steps.specs.Ways.{follows, way_on, ways_behind};

use crate::turnings::bearing_on;
use edge_graph::Network;
use std::alloc::{AllocError, Global};

/// A vertex that leaves a node, and its bearing in whole degrees, below 360.
#[derive(Clone, Copy)]
pub(crate) struct Way {
    pub(crate) vertex: u32,
    pub(crate) bearing: u32,
}

// These vertices with their bearings.
fn with_bearings(alloc: Global, network: &Network, vertices: &[u32]) -> Result<Vec<Way>, AllocError>
    requires { All (λ v. v < 2 * length network.now.segments) vertices.now }
    ensures ways { IfOk result (λ ways. ways.items ≡ map (way_on network.now) vertices.now) }
    ensures bound { IfOk result (λ ways. All (λ way. way.bearing < 360) ways.items) }
{
    let mut ways = Vec::with_capacity(alloc, vertices.len())?;
    for vertex in vertices {
        ways.push(Way {
            vertex: *vertex,
            bearing: bearing_on(network, *vertex),
        })?;
    }
    Ok(ways)
}

/// The vertices that leave the node where vertex `d` ends, permitted or not, by their bearings and then by their
/// numbers. It answers an error only where memory runs out.
pub(crate) fn ways_behind(alloc: Global, network: &Network, d: u32) -> Result<Vec<Way>, AllocError>
    requires { d < 2 * length network.now.segments }
    ensures ways { IfOk result (λ ways. ways.items ≡ map (way_on network.now) (ways_behind network.now d)) }
    ensures few { IfOk result (λ ways. length ways.items < 2 ^ 32) }
{
    // tells a proof that there are few vertices
    let _turns = network.graph();
    let mut ways = with_bearings(alloc, network, network.leaving(network.head(d)))?;
    ways.sort_by_key(|way| way.bearing)?;
    Ok(ways)
}

// The vertices for which those stand onto which the arcs from a vertex lead.
fn heads_from(alloc: Global, network: &Network, d: u32) -> Result<Vec<u32>, AllocError>
    requires { d < 2 * length network.now.segments }
    ensures { IfOk result (λ heads. (v : ℕ) → list_any (λ u. u == v) heads.items ≡ follows network.now d v) }
{
    let graph = network.graph();
    let row = graph.out(d);
    let mut heads = Vec::with_capacity(alloc, row.len())?;
    for place in 0..row.len() {
        let arc = row.get(place);
        let ends = graph.arc(arc);
        heads.push(network.stands_for(ends.1))?;
    }
    Ok(heads)
}

/// The vertices that may follow vertex `d`, in ascending order. It answers an error only where memory runs out.
pub(crate) fn followers(alloc: Global, network: &Network, d: u32) -> Result<Vec<u32>, AllocError>
    requires { d < 2 * length network.now.segments }
    ensures ascending { IfOk result (λ followers. IsNonDecreasing followers.items) }
    ensures all { IfOk result (λ followers. (v : ℕ) → list_any (λ u. u == v) followers.items ≡ follows network.now d v) }
{
    let mut followers = heads_from(alloc, network, d)?;
    followers.sort_unstable();
    Ok(followers)
}

/// The bearings of these ways. It answers an error only where memory runs out.
pub(crate) fn bearings_of(alloc: Global, ways: &[Way]) -> Result<Vec<u32>, AllocError>
    ensures { IfOk result (λ bearings. bearings.items ≡ map (λ way. way.bearing) ways.now) }
{
    let mut bearings = Vec::with_capacity(alloc, ways.len())?;
    for way in ways {
        bearings.push(way.bearing)?;
    }
    Ok(bearings)
}

// Whether a vertex is among these.
fn is_among(v: u32, ascending: &[u32]) -> bool
    requires { IsNonDecreasing ascending.now }
    ensures { result ≡ list_any (λ u. u == v) ascending.now }
{
    ascending.binary_search(&v).is_ok()
}

/// For each of these ways whether it is among these vertices. It answers an error only where memory runs out.
pub(crate) fn entries_of(
    alloc: Global,
    ways: &[Way],
    followers: &[u32],
) -> Result<Vec<bool>, AllocError>
    requires { IsNonDecreasing followers.now }
    ensures { IfOk result (λ entries. entries.items ≡ map (λ way. list_any (λ u. u == way.vertex) followers.now) ways.now) }
{
    let mut entries = Vec::with_capacity(alloc, ways.len())?;
    for way in ways {
        entries.push(is_among(way.vertex, followers))?;
    }
    Ok(entries)
}

// Where a vertex stands among these ways, if it is there.
fn position_of(ways: &[Way], v: u32) -> Option<usize>
    ensures { result ≡ position (λ way. way.vertex == v) ways.now }
{
    ways.iter().position(|way| way.vertex == v)
}

/// The place of a vertex among these ways, if it is there.
pub(crate) fn place_of(ways: &[Way], v: u32) -> Option<u32>
    requires { length ways.now < 2 ^ 32 }
    ensures { result ≡ position (λ way. way.vertex == v) ways.now }
{
    match position_of(ways, v) {
        Some(place) => Some(place as u32),
        None => None,
    }
}
