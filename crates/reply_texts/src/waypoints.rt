//! What replies tell of coordinates' places on roads.

ghost use Rattle.std.specs.Prelude.{◌≡◌, ◌^◌, ◌<◌, OnOk, length, map};
ghost use Rattle.std.specs.List.{slice_get};
ghost use Rattle.road_segments.specs.Vertex.{vertices};
ghost use Rattle.geo_integer.specs.Position.{position_of};
ghost use Rattle.json_text.specs.Drafts.{TakesKey, TakesValue, with_value};
ghost use Rattle.json_text.specs.Wholes.{array_of, with_members};
ghost use Rattle.road_places.specs.Places.{ArePlacesOn, IsPlaceOn};
ghost use Rattle.reply_texts.specs.Replies.{waypoints_member};
ghost use Rattle.reply_texts.specs.Waypoints.{members_on, neighbour_of, nodes_on, waypoint_of, waypoints_of};

use edge_graph::Network;
use geo_integer::distance;
use json_text::Json;
use road_base::{Place, Point};
use std::alloc::AllocError;

/// Coordinates, in their order, and the places that stand for them, one for each.
#[derive(Clone, Copy, Drop)]
pub struct Stops<'a> {
    pub coordinates: &'a [Point],
    pub places: &'a [Place],
}

// How far a place lies from its coordinate, its way's name, and where it lies.
pub(crate) fn push_place(
    json: &mut Json,
    network: &Network,
    coordinate: Point,
    place: Place,
) -> Result<(), AllocError>
    requires takes { TakesKey json.old }
    requires few { length network.now.segments < 2 ^ 30 }
    requires placed { IsPlaceOn network.now place }
    ensures ok { OnOk result (json.new ≡ with_members (members_on (slice_get network.now.segments place.segment) (position_of coordinate) place.at) json.old) }
    ensures more { OnOk result (TakesKey json.new) }
{
    let point = network.point(place);
    let name = network.name(2 * place.segment);
    json.tenths_member("distance", u128::from(distance(coordinate, point)))?;
    json.text_member("name", name)?;
    json.key("location")?;
    json.degrees(point)?;
    Ok(())
}

// The waypoint of a coordinate that is snapped to this place.
fn push_waypoint(
    json: &mut Json,
    network: &Network,
    coordinate: Point,
    place: Place,
) -> Result<(), AllocError>
    requires takes { TakesValue json.old }
    requires few { length network.now.segments < 2 ^ 30 }
    requires placed { IsPlaceOn network.now place }
    ensures { OnOk result (json.new ≡ with_value (waypoint_of network.now.segments (coordinate, place)) json.old) }
{
    json.begin_object()?;
    push_place(json, network, coordinate, place)?;
    json.end_object()?;
    Ok(())
}

// The waypoints of coordinates, in their order.
fn push_waypoints(
    json: &mut Json,
    network: &Network,
    coordinates: &[Point],
    places: &[Place],
) -> Result<(), AllocError>
    requires takes { TakesValue json.old }
    requires few { length network.now.segments < 2 ^ 30 }
    requires as_many { length places.now ≡ length coordinates.now }
    requires placed { ArePlacesOn network.now places.now }
    ensures { OnOk result (json.new ≡ with_value (array_of (waypoints_of network.now.segments coordinates.now places.now)) json.old) }
{
    json.begin_list()?;
    for number in 0..coordinates.len() {
        push_waypoint(json, network, coordinates[number], places[number])?;
    }
    json.end_list()?;
    Ok(())
}

// The same as a member, unless waypoints are skipped.
pub(crate) fn push_waypoints_member(
    json: &mut Json,
    network: &Network,
    skip: bool,
    name: &str,
    stops: &Stops<'_>,
) -> Result<(), AllocError>
    requires takes { TakesKey json.old }
    requires few { length network.now.segments < 2 ^ 30 }
    requires as_many { length stops.now.places.now ≡ length stops.now.coordinates.now }
    requires placed { ArePlacesOn network.now stops.now.places.now }
    ensures ok { OnOk result (json.new ≡ with_members (waypoints_member skip name.now (waypoints_of network.now.segments stops.now.coordinates.now stops.now.places.now)) json.old) }
    ensures more { OnOk result (TakesKey json.new) }
{
    if skip {
        return Ok(());
    }
    json.key(name)?;
    push_waypoints(json, network, stops.coordinates, stops.places)?;
    Ok(())
}

// The two nodes of a segment, in the order of its way.
fn push_nodes(json: &mut Json, network: &Network, segment: u32) -> Result<(), AllocError>
    requires takes { TakesKey json.old }
    requires few { length network.now.segments < 2 ^ 30 }
    requires placed { segment < length network.now.segments }
    ensures ok { OnOk result (json.new ≡ with_members (nodes_on (slice_get network.now.segments segment)) json.old) }
    ensures more { OnOk result (TakesKey json.new) }
{
    json.key("nodes")?;
    json.begin_list()?;
    json.whole(network.tail(2 * segment))?;
    json.whole(network.head(2 * segment))?;
    json.end_list()?;
    Ok(())
}

// A place next to a coordinate.
fn push_neighbour(
    json: &mut Json,
    network: &Network,
    coordinate: Point,
    place: Place,
) -> Result<(), AllocError>
    requires takes { TakesValue json.old }
    requires few { length network.now.segments < 2 ^ 30 }
    requires placed { IsPlaceOn network.now place }
    ensures { OnOk result (json.new ≡ with_value (neighbour_of network.now.segments coordinate place) json.old) }
{
    json.begin_object()?;
    push_nodes(json, network, place.segment)?;
    push_place(json, network, coordinate, place)?;
    json.end_object()?;
    Ok(())
}

// The places next to a coordinate, in their order.
pub(crate) fn push_neighbours(
    json: &mut Json,
    network: &Network,
    coordinate: Point,
    places: &[Place],
) -> Result<(), AllocError>
    requires takes { TakesValue json.old }
    requires few { length network.now.segments < 2 ^ 30 }
    requires placed { ArePlacesOn network.now places.now }
    ensures { OnOk result (json.new ≡ with_value (array_of (map (neighbour_of network.now.segments coordinate) places.now)) json.old) }
{
    json.begin_list()?;
    for place in places {
        push_neighbour(json, network, coordinate, *place)?;
    }
    json.end_list()?;
    Ok(())
}
