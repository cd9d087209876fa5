//! The ways of a map that the vehicle may use, in the order of their ids.

ghost use Rattle.std.specs.Prelude.{◌≡◌, ℤ, ◌<◌, ◌≤◌, nat_lt, IfOk, IfSome, Option, All, length};
ghost use Rattle.std.specs.BTreeMap.{values};
ghost use Rattle.road_segments.specs.Located.{AreRoutes, StandAt, nodes_at, segments_on, spot_in};
ghost use Rattle.road_segments.specs.Limits.{CountsUpTo, IsRoomFor, most_segments};
ghost use Rattle.road_segments.specs.Segment.{segments_used, street_of, ways_by_id};
ghost use Rattle.road_segments.specs.declared.spots.Spot.{Spot};
ghost use Rattle.way_profile.specs.Vehicle.{ProfileView};

use crate::limits::MOST_SEGMENTS;
use crate::spots::{SpotMap, any_along, count_along};
use crate::streets::Street;
use road_base::{Object, Text, Way};
use std::alloc::{AllocError, Global};
use std::collections::BTreeMap;
use way_profile::{Profile, WayUse};

/// The streets, and for each the place of its way among the objects.
#[derive(Drop)]
pub struct Routes {
    pub streets: Vec<Street>,
    pub places: Vec<usize>,
}

// The places of the ways among the objects, in ascending order of the ways' ids.
fn way_places(alloc: Global, objects: &[Object]) -> Result<Vec<usize>, AllocError>
    ensures { IfOk result (λ places. StandAt objects.now places.items (ways_by_id objects.now)) }
{
    let mut ways = BTreeMap::new(alloc);
    for i in (0..objects.len()).rev() {
        if let Object::Way(way) = &objects[i] {
            ways.insert(way.id, i)?;
        }
    }
    values_of(alloc, ways)
}

// The values of a map, in ascending order of their keys.
fn values_of(alloc: Global, map: BTreeMap<i64, usize>) -> Result<Vec<usize>, AllocError>
    ensures { IfOk result (λ places. places.items ≡ values map) }
{
    map.into_values().collect(alloc)
}

// What a way that may be used so is to its segments.
fn street(alloc: Global, profile: &Profile, usage: WayUse, way: &Way) -> Result<Street, AllocError>
    ensures { IfOk result (λ street. street ≡ street_of profile.now usage way.now) }
{
    let name = match way.tags.get("name") {
        Some(name) => name,
        None => "",
    };
    Ok(Street {
        way: way.id,
        name: Text::copy_of(alloc, name)?,
        classes: profile.classes(alloc, &way.tags)?,
        speed: usage.speed,
        forward: usage.forward,
        backward: usage.backward,
        round: usage.round,
    })
}

// Whether a way that may be used so has any segment.
fn has_segments(spots: &SpotMap, usage: WayUse, way: &Way) -> bool
    ensures { (profile : ProfileView) → result ≡ nat_lt 0 (length (segments_used (spot_in spots.now) profile usage way.now)) }
{
    if usage.forward || usage.backward {
        any_along(spots, way.nodes.as_slice())
    } else {
        false
    }
}

/// The ways that the vehicle may use in some direction, if they have any segment.
pub fn routes_of(
    alloc: Global,
    objects: &[Object],
    profile: &Profile,
    spots: &SpotMap,
) -> Result<Routes, AllocError>
    ensures { IfOk result (λ r. AreRoutes (spot_in spots.now) objects.now profile.now (ways_by_id objects.now) r.streets.items r.places.items) }
{
    let mut streets = Vec::new(alloc);
    let mut places = Vec::new(alloc);
    let all = way_places(alloc, objects)?;
    for place in &all {
        if let Object::Way(way) = &objects[*place] {
            let usage = profile.way(&way.tags);
            if has_segments(spots, usage, way) {
                streets.push(street(alloc, profile, usage, way)?)?;
                places.push(*place)?;
            }
        }
    }
    Ok(Routes { streets, places })
}

/// The ids of the nodes of the way at a place among the objects.
pub fn nodes_of(objects: &[Object], place: usize) -> &[i64]
    requires { place < length objects.now }
    ensures { result.now ≡ nodes_at objects.now place }
{
    match &objects[place] {
        Object::Way(way) => way.nodes.as_slice(),
        _ => &[],
    }
}

// How many segments there are, or None where they are more than a network may have.
#[tactic(auto, unfolding(crate::specs::Limits::most_segments))]
fn segment_count(objects: &[Object], routes: &Routes, spots: &SpotMap) -> Option<usize>
    requires in_range { All (λ place. place < length objects.now) routes.now.places.items }
    requires as_many { length routes.now.streets.items ≡ length routes.now.places.items }
    ensures { CountsUpTo (length (segments_on (spot_in spots.now) objects.now routes.now.streets.items routes.now.places.items)) most_segments result }
{
    let mut count = 0;
    for place in &routes.places {
        count += count_along(spots, nodes_of(objects, *place));
        if count > MOST_SEGMENTS {
            return None;
        }
    }
    Some(count)
}

// Room for a segment to each node of a way but its first, or None where that is more than a network may have.
#[tactic(auto, unfolding(crate::specs::Limits::most_segments))]
fn room_by_nodes(objects: &[Object], routes: &Routes) -> Option<usize>
    requires in_range { All (λ place. place < length objects.now) routes.now.places.items }
    requires as_many { length routes.now.streets.items ≡ length routes.now.places.items }
    ensures enough { IfSome result (λ room. (spot : ℤ → Option Spot) → length (segments_on spot objects.now routes.now.streets.items routes.now.places.items) ≤ room) }
    ensures few { IfSome result (λ room. room ≤ most_segments) }
{
    let mut room = 0;
    for place in &routes.places {
        room += nodes_of(objects, *place).len().saturating_sub(1);
        if room > MOST_SEGMENTS {
            return None;
        }
    }
    Some(room)
}

/// Room for the segments, or None where they are more than a network may have. They are only counted, which asks for the
/// spots of all their ends, where the ways have more nodes than that.
pub fn room_for(objects: &[Object], routes: &Routes, spots: &SpotMap) -> Option<usize>
    requires in_range { All (λ place. place < length objects.now) routes.now.places.items }
    requires as_many { length routes.now.streets.items ≡ length routes.now.places.items }
    ensures { IsRoomFor (length (segments_on (spot_in spots.now) objects.now routes.now.streets.items routes.now.places.items)) most_segments result }
{
    match room_by_nodes(objects, routes) {
        Some(room) => Some(room),
        None => segment_count(objects, routes, spots),
    }
}
