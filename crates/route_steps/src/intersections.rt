//! What a driver meets at the nodes of a walk.

ghost use Rattle.std.specs.Prelude.{◌≡◌, ◌+◌, ◌*◌, ◌<◌, ◌≤◌, All, IfOk, length};
ghost use Rattle.route_steps.specs.Intersections.{arrival_on, departure_onto, intersection_at, intersection_between, intersections_between};

use crate::intersection_lists::{Flags, Intersection, Intersections};
use crate::turnings::bearing_on;
use crate::ways::{bearings_of, entries_of, followers, place_of, ways_behind};
use edge_graph::Network;
use road_base::Point;
use road_turns::other_way;
use search_graph::Numbers;
use std::alloc::{AllocError, Global};

// The departure along a vertex, from somewhere on it.
fn departure_onto(
    alloc: Global,
    network: &Network,
    location: Point,
    v: u32,
) -> Result<Intersection, AllocError>
    requires { v < 2 * length network.now.segments }
    ensures { IfOk result (λ x. x ≡ departure_onto network.now location v) }
{
    let bearings = Vec::from_slice(alloc, &[bearing_on(network, v)])?;
    let entry = Vec::from_slice(alloc, &[true])?;
    Ok(Intersection {
        location,
        bearings: Numbers::of(bearings),
        entry: Flags::of(entry),
        enter: None,
        leave: Some(0),
    })
}

/// The arrival along a vertex, somewhere on it. It answers an error only where memory runs out.
pub(crate) fn arrival_on(
    alloc: Global,
    network: &Network,
    location: Point,
    v: u32,
) -> Result<Intersection, AllocError>
    requires { v < 2 * length network.now.segments }
    ensures { IfOk result (λ x. x ≡ arrival_on network.now location v) }
{
    let bearings = Vec::from_slice(alloc, &[(bearing_on(network, v) + 180) % 360])?;
    let entry = Vec::from_slice(alloc, &[true])?;
    Ok(Intersection {
        location,
        bearings: Numbers::of(bearings),
        entry: Flags::of(entry),
        enter: Some(0),
        leave: None,
    })
}

// The node between two vertices of a walk.
fn intersection_between(
    alloc: Global,
    network: &Network,
    location: Point,
    d: u32,
    e: u32,
) -> Result<Intersection, AllocError>
    requires { d < 2 * length network.now.segments }
    ensures { IfOk result (λ x. x ≡ intersection_between network.now location d e) }
{
    let ways = ways_behind(alloc, network, d)?;
    let followers = followers(alloc, network, d)?;
    let bearings = bearings_of(alloc, &ways)?;
    let entry = entries_of(alloc, &ways, &followers)?;
    let enter = place_of(&ways, other_way(d));
    let leave = place_of(&ways, e);
    Ok(Intersection {
        location,
        bearings: Numbers::of(bearings),
        entry: Flags::of(entry),
        enter,
        leave,
    })
}

// The intersection at a place of a walk.
fn intersection_at(
    alloc: Global,
    network: &Network,
    walk: &[u32],
    points: &[Point],
    place: usize,
) -> Result<Intersection, AllocError>
    requires in_range { All (λ v. v < 2 * length network.now.segments) walk.now }
    requires place { place < length walk.now }
    requires points { length points.now ≡ length walk.now + 1 }
    ensures { IfOk result (λ x. x ≡ intersection_at network.now walk.now points.now place) }
{
    let location = points[place];
    if place == 0 {
        Ok(departure_onto(alloc, network, location, walk[0])?)
    } else {
        let (before, behind) = (walk[place - 1], walk[place]);
        Ok(intersection_between(alloc, network, location, before, behind)?)
    }
}

/// The intersections of a walk with these points from one of its places on, that lie before another. It answers an
/// error only where memory runs out.
pub(crate) fn intersections_between(
    alloc: Global,
    network: &Network,
    walk: &[u32],
    points: &[Point],
    begin: usize,
    end: usize,
) -> Result<Intersections, AllocError>
    requires in_range { All (λ v. v < 2 * length network.now.segments) walk.now }
    requires points { length points.now ≡ length walk.now + 1 }
    requires ahead { begin ≤ end }
    requires within { end ≤ length walk.now }
    ensures { IfOk result (λ all. all ≡ intersections_between network.now walk.now points.now begin end) }
{
    let mut all = Vec::with_capacity(alloc, end - begin)?;
    for place in begin..end {
        all.push(intersection_at(alloc, network, walk, points, place)?)?;
    }
    Ok(Intersections::of(all))
}
