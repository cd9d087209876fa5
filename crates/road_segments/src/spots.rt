//! What the nodes of a map are to the vehicle, and what lies between two of them.

ghost use Rattle.std.specs.Prelude.{◌≡◌, ℤ, ◌≤◌, IfOk, Option, length, nat_lt};
ghost use Rattle.road_segments.specs.Located.{segment_with, spot_in};
ghost use Rattle.road_segments.specs.Segment.{segment_between, segments_along};
ghost use Rattle.road_segments.specs.Spots.{is_closed, is_signal, node_use, spot_at, spot_of};
ghost use Rattle.road_segments.specs.declared.spots.Spot.{Spot};
ghost use Rattle.road_segments.specs.declared.streets.Street.{Street};

use road_base::{Node, Object, Point, Tags};
use std::alloc::{AllocError, Global};
use std::collections::HashMap;
use way_profile::Profile;

/// What a node is to the vehicle.
#[derive(Clone, Copy)]
pub struct NodeUse {
    /// a barrier stands there that the vehicle does not pass
    pub closed: bool,
    /// a traffic signal stands there
    pub signal: bool,
}

/// Where a node lies, and what it is to the vehicle.
#[derive(Clone, Copy)]
pub struct Spot {
    pub point: Point,
    pub usage: NodeUse,
}

/// The spots of nodes by their ids; None for a node without a location.
pub type SpotMap = HashMap<i64, Option<Spot>>;

// Whether a barrier stands at a node with these tags that the vehicle does not pass.
fn is_closed(profile: &Profile, tags: &Tags) -> bool
    ensures { result ≡ is_closed profile.now tags.now }
{
    match tags.get("barrier") {
        Some(value) => profile.barrier(value),
        None => false,
    }
}

// Whether a traffic signal stands at a node with these tags.
fn is_signal(tags: &Tags) -> bool
    ensures { result ≡ is_signal tags.now }
{
    match tags.get("highway") {
        Some(value) => value == "traffic_signals",
        None => false,
    }
}

fn node_use(profile: &Profile, tags: &Tags) -> NodeUse
    ensures { result ≡ node_use profile.now tags.now }
{
    NodeUse {
        closed: is_closed(profile, tags),
        signal: is_signal(tags),
    }
}

// The spot of a node, if it has a location.
fn spot_of(profile: &Profile, node: &Node) -> Option<Spot>
    ensures { result ≡ spot_of profile.now node.now }
{
    match node.point {
        Some(point) => Some(Spot {
            point,
            usage: node_use(profile, &node.tags),
        }),
        None => None,
    }
}

/// The spots of all nodes among the objects.
pub fn spots_of(alloc: Global, objects: &[Object], profile: &Profile) -> Result<SpotMap, AllocError>
    ensures { IfOk result (λ m. (id : ℤ) → spot_in m id ≡ spot_at profile.now objects.now id) }
{
    let mut spots = HashMap::new(alloc);
    for i in (0..objects.len()).rev() {
        if let Object::Node(node) = &objects[i] {
            spots.insert(node.id, spot_of(profile, node))?;
        }
    }
    Ok(spots)
}

/// The spot of the node of this id.
pub fn spot_in(spots: &SpotMap, id: i64) -> Option<Spot>
    ensures { result ≡ spot_in spots.now id }
{
    match spots.get(&id) {
        Some(spot) => *spot,
        None => None,
    }
}

/// The two spots of the segment between neighbouring nodes of a way, whose spots are these, or None where there is no
/// segment.
pub fn ends_between(a: i64, b: i64, from: Option<Spot>, to: Option<Spot>) -> Option<(Spot, Spot)>
    ensures { (spot : ℤ → Option Spot) (street : Street) → spot a ≡ from → spot b ≡ to → segment_between spot street a b ≡ segment_with street a b result }
{
    if a == b {
        return None;
    }
    match (from, to) {
        (Some(from), Some(to)) => Some((from, to)),
        _ => None,
    }
}

// The same of the nodes of these ids.
fn segment_ends(spots: &SpotMap, a: i64, b: i64) -> Option<(Spot, Spot)>
    ensures { (street : Street) → segment_between (spot_in spots.now) street a b ≡ segment_with street a b result }
{
    ends_between(a, b, spot_in(spots, a), spot_in(spots, b))
}

/// How many segments lie along these nodes of a way.
pub fn count_along(spots: &SpotMap, ids: &[i64]) -> usize
    ensures value { (street : Street) → result ≡ length (segments_along (spot_in spots.now) street ids.now) }
    ensures bound { result ≤ length ids.now }
{
    let mut count = 0;
    for i in 1..ids.len() {
        if segment_ends(spots, ids[i - 1], ids[i]).is_some() {
            count += 1;
        }
    }
    count
}

/// Whether a segment lies along these nodes of a way.
pub fn any_along(spots: &SpotMap, ids: &[i64]) -> bool
    ensures { (street : Street) → result ≡ nat_lt 0 (length (segments_along (spot_in spots.now) street ids.now)) }
{
    for i in 1..ids.len() {
        if segment_ends(spots, ids[i - 1], ids[i]).is_some() {
            return true;
        }
    }
    false
}
