//! Replies with a trip.

ghost use Rattle.std.specs.Prelude.{◌≡◌, ◌^◌, ◌<◌, IfOk, length, string_bytes};
ghost use Rattle.json_text.specs.Values.{compact_text};
ghost use Rattle.road_places.specs.Places.{ArePlacesOn};
ghost use Rattle.metric_make.specs.RoadMetric.{road_of};
ghost use Rattle.reply_texts.specs.Replies.{trip_reply};
ghost use Rattle.reply_texts.specs.RouteLegs.{ArePermitted, AreSmall, legs_told};
ghost use Rattle.reply_texts.specs.Waypoints.{trip_waypoints_of};

use crate::route_texts::push_routes;
use crate::trip_waypoints::push_trip_waypoints_member;
use crate::waypoints::Stops;
use edge_graph::Network;
use json_text::Json;
use metric_make::BaseMetric;
use refusal_texts::{Code, begin_version_reply};
use road_base::Place;
use road_places::Route;
use std::alloc::{AllocError, Global};
use url_read::{Request, Telling};

/// Where a trip goes.
#[derive(Clone, Copy, Drop)]
pub struct Tour<'a> {
    /// The places that stand for the coordinates of the request, one for each, in the order of the request.
    pub places: &'a [Place],
    /// The numbers of the coordinates, from 0, in the order in which the trip comes to them.
    pub order: &'a [u32],
    /// The places at which it stops, in that order; where it goes back to its beginning, that again at the end.
    pub stops: &'a [Place],
}

/// The reply to a request with a trip through its coordinates, under a metric of this number: its legs, from each stop to
/// the next, are these routes, and each coordinate's waypoint tells where in the order the trip comes to it. What is told
/// of a leg is all of the one walk. An `Err` is want of memory.
pub fn trip_text(
    alloc: Global,
    network: &Network,
    base: &BaseMetric,
    number: u32,
    request: &Request,
    telling: &Telling,
    tour: &Tour<'_>,
    routes: &[Route],
) -> Result<String, AllocError>
    requires few { length network.now.segments < 2 ^ 30 }
    requires legs { length routes.now < 2 ^ 32 }
    requires as_many { length tour.now.places.now ≡ length request.now.points }
    requires placed { ArePlacesOn network.now tour.now.places.now }
    requires stops_placed { ArePlacesOn network.now tour.now.stops.now }
    requires permitted { ArePermitted (road_of network.now base.now) tour.now.stops.now routes.now }
    requires small { AreSmall routes.now }
    ensures { IfOk result (λ text. string_bytes text ≡ compact_text (trip_reply number request.now.skip_waypoints telling.now network.now.profile (legs_told (road_of network.now base.now) tour.now.stops.now routes.now) (trip_waypoints_of network.now.segments request.now.points tour.now.places.now tour.now.order.now))) }
{
    let skip = request.skip_waypoints;
    let mut json = Json::new(alloc);
    let stops = Stops {
        coordinates: request.points.as_slice(),
        places: tour.places,
    };
    begin_version_reply(&mut json, Code::Ok, number)?;
    json.key("trips")?;
    push_routes(alloc, &mut json, network, base, telling, tour.stops, routes)?;
    push_trip_waypoints_member(&mut json, network, skip, tour.order, &stops)?;
    json.end_object()?;
    Ok(json.into_text())
}
