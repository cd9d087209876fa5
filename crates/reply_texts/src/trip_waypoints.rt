//! What replies tell of the places that a trip goes through.

ghost use Rattle.std.specs.Prelude.{◌≡◌, ◌^◌, ◌<◌, ◌==◌, OnOk, codes, length};
ghost use Rattle.std.specs.List.{position, position_or_len};
ghost use Rattle.json_text.specs.Drafts.{TakesKey, TakesValue, with_value};
ghost use Rattle.json_text.specs.Wholes.{array_of, with_members};
ghost use Rattle.road_places.specs.Places.{ArePlacesOn, IsPlaceOn};
ghost use Rattle.reply_texts.specs.Replies.{waypoints_member};
ghost use Rattle.reply_texts.specs.Waypoints.{trip_members, trip_waypoint_of, trip_waypoints_of};

use crate::waypoints::{Stops, push_place};
use edge_graph::Network;
use json_text::Json;
use road_base::{Place, Point};
use std::alloc::AllocError;

// Where a number stands in an order, from 0.
fn position_in(order: &[u32], number: usize) -> Option<usize>
    ensures { result ≡ position (λ stop. stop == number) order.now }
{
    order.iter().position(|stop| *stop as usize == number)
}

// The same, or the order's length where it doesn't stand there.
fn place_in(order: &[u32], number: usize) -> usize
    ensures { result ≡ position_or_len (λ stop. stop == number) order.now }
{
    position_in(order, number).unwrap_or(order.len())
}

// Where a trip comes to the coordinate of this number.
fn push_visit(json: &mut Json, order: &[u32], number: usize) -> Result<(), AllocError>
    requires { TakesKey json.old }
    ensures ok { OnOk result (json.new ≡ with_members (trip_members order.now number) json.old) }
    ensures more { OnOk result (TakesKey json.new) }
{
    json.count_member("waypoint_index", place_in(order, number) as u128)?;
    json.count_member("trips_index", 0)?;
    Ok(())
}

// The waypoint of the coordinate of this number, which stands here with the place that it is snapped to.
fn push_trip_waypoint(
    json: &mut Json,
    network: &Network,
    order: &[u32],
    number: usize,
    stop: (Point, Place),
) -> Result<(), AllocError>
    requires takes { TakesValue json.old }
    requires few { length network.now.segments < 2 ^ 30 }
    requires placed { IsPlaceOn network.now stop.1 }
    ensures { OnOk result (json.new ≡ with_value (trip_waypoint_of network.now.segments order.now (number, stop)) json.old) }
{
    json.begin_object()?;
    push_visit(json, order, number)?;
    push_place(json, network, stop.0, stop.1)?;
    json.end_object()?;
    Ok(())
}

// The waypoints of a trip's coordinates, in the order of the request.
fn push_trip_waypoints(
    json: &mut Json,
    network: &Network,
    order: &[u32],
    coordinates: &[Point],
    places: &[Place],
) -> Result<(), AllocError>
    requires takes { TakesValue json.old }
    requires few { length network.now.segments < 2 ^ 30 }
    requires as_many { length places.now ≡ length coordinates.now }
    requires placed { ArePlacesOn network.now places.now }
    ensures { OnOk result (json.new ≡ with_value (array_of (trip_waypoints_of network.now.segments coordinates.now places.now order.now)) json.old) }
{
    json.begin_list()?;
    for number in 0..coordinates.len() {
        let stop = (coordinates[number], places[number]);
        push_trip_waypoint(json, network, order, number, stop)?;
    }
    json.end_list()?;
    Ok(())
}

// The same as a member, unless waypoints are skipped.
pub(crate) fn push_trip_waypoints_member(
    json: &mut Json,
    network: &Network,
    skip: bool,
    order: &[u32],
    stops: &Stops<'_>,
) -> Result<(), AllocError>
    requires takes { TakesKey json.old }
    requires few { length network.now.segments < 2 ^ 30 }
    requires as_many { length stops.now.places.now ≡ length stops.now.coordinates.now }
    requires placed { ArePlacesOn network.now stops.now.places.now }
    ensures ok { OnOk result (json.new ≡ with_members (waypoints_member skip (codes "waypoints") (trip_waypoints_of network.now.segments stops.now.coordinates.now stops.now.places.now order.now)) json.old) }
    ensures more { OnOk result (TakesKey json.new) }
{
    if skip {
        return Ok(());
    }
    json.key("waypoints")?;
    push_trip_waypoints(json, network, order, stops.coordinates, stops.places)?;
    Ok(())
}
