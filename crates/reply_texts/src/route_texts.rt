//! Replies with a route.

ghost use Rattle.std.specs.Prelude.{◌≡◌, ◌^◌, ◌<◌, IfOk, OnOk, [], ◌∷◌, length, map, string_bytes, sum_by};
ghost use Rattle.json_text.specs.Values.{compact_text};
ghost use Rattle.json_text.specs.Drafts.{TakesValue, with_value};
ghost use Rattle.json_text.specs.Wholes.{array_of};
ghost use Rattle.road_places.specs.Places.{ArePlacesOn};
ghost use Rattle.metric_make.specs.RoadMetric.{road_of};
ghost use Rattle.reply_texts.specs.Legs.{route_totals, route_value};
ghost use Rattle.reply_texts.specs.Replies.{route_reply};
ghost use Rattle.reply_texts.specs.RouteLegs.{ArePermitted, AreSmall, legs_told};
ghost use Rattle.reply_texts.specs.Waypoints.{waypoints_of};

use crate::legs::push_legs;
use crate::route_lines::push_route_line;
use crate::waypoints::{Stops, push_waypoints_member};
use edge_graph::Network;
use json_text::Json;
use metric_make::BaseMetric;
use refusal_texts::{Code, begin_version_reply};
use road_base::Place;
use road_places::Route;
use std::alloc::{AllocError, Global};
use step_texts::{Totals, WeightName, push_totals};
use url_read::{Request, Telling};

// How long the routes are together, in decimetres.
fn length_of(routes: &[Route]) -> u128
    requires { length routes.now < 2 ^ 32 }
    ensures { result ≡ sum_by (λ route. route.cost.length) routes.now }
{
    routes
        .iter()
        .map(|route| u128::from(route.cost.length))
        .sum()
}

// How many deciseconds they take together.
fn duration_of(routes: &[Route]) -> u128
    requires { length routes.now < 2 ^ 32 }
    ensures { result ≡ sum_by (λ route. route.cost.duration) routes.now }
{
    routes
        .iter()
        .map(|route| u128::from(route.cost.duration))
        .sum()
}

// What they weigh together, in tenths of what is printed.
fn weight_of(routes: &[Route]) -> u128
    requires { length routes.now < 2 ^ 32 }
    ensures { result ≡ sum_by (λ route. route.cost.weight) routes.now }
{
    routes
        .iter()
        .map(|route| u128::from(route.cost.weight))
        .sum()
}

// What the legs cost together.
fn route_totals(routes: &[Route]) -> Totals
    requires { length routes.now < 2 ^ 32 }
    ensures { result ≡ route_totals (map (λ route. route.cost) routes.now) }
{
    Totals {
        length: length_of(routes),
        duration: duration_of(routes),
        weight: weight_of(routes),
    }
}

// A route through these places.
fn push_route(
    alloc: Global,
    json: &mut Json,
    network: &Network,
    base: &BaseMetric,
    telling: &Telling,
    places: &[Place],
    routes: &[Route],
) -> Result<(), AllocError>
    requires takes { TakesValue json.old }
    requires legs { length routes.now < 2 ^ 32 }
    requires placed { ArePlacesOn network.now places.now }
    requires permitted { ArePermitted (road_of network.now base.now) places.now routes.now }
    requires small { AreSmall routes.now }
    ensures { OnOk result (json.new ≡ with_value (route_value telling.now network.now.profile (legs_told (road_of network.now base.now) places.now routes.now)) json.old) }
{
    json.begin_object()?;
    push_totals(json, route_totals(routes))?;
    let name = WeightName::of(network.profile());
    json.text_member("weight_name", name.text())?;
    push_route_line(alloc, json, network, base, telling, places, routes)?;
    json.key("legs")?;
    push_legs(alloc, json, network, base, telling, places, routes)?;
    json.end_object()?;
    Ok(())
}

// The one route of a reply, in a list.
pub(crate) fn push_routes(
    alloc: Global,
    json: &mut Json,
    network: &Network,
    base: &BaseMetric,
    telling: &Telling,
    places: &[Place],
    routes: &[Route],
) -> Result<(), AllocError>
    requires takes { TakesValue json.old }
    requires legs { length routes.now < 2 ^ 32 }
    requires placed { ArePlacesOn network.now places.now }
    requires permitted { ArePermitted (road_of network.now base.now) places.now routes.now }
    requires small { AreSmall routes.now }
    ensures { OnOk result (json.new ≡ with_value (array_of (route_value telling.now network.now.profile (legs_told (road_of network.now base.now) places.now routes.now) ∷ [])) json.old) }
{
    json.begin_list()?;
    push_route(alloc, json, network, base, telling, places, routes)?;
    json.end_list()?;
    Ok(())
}

/// The reply to a request with a route through its coordinates, for which these places stand, under a metric of
/// this number: its legs are these routes. What is told of a leg's cost, line, steps and annotation is all of the one
/// walk; so its steps cost together what it costs, and their lines are its line, cut. An `Err` is want of memory.
pub fn route_text(
    alloc: Global,
    network: &Network,
    base: &BaseMetric,
    number: u32,
    request: &Request,
    telling: &Telling,
    places: &[Place],
    routes: &[Route],
) -> Result<String, AllocError>
    requires few { length network.now.segments < 2 ^ 30 }
    requires legs { length routes.now < 2 ^ 32 }
    requires as_many { length places.now ≡ length request.now.points }
    requires placed { ArePlacesOn network.now places.now }
    requires permitted { ArePermitted (road_of network.now base.now) places.now routes.now }
    requires small { AreSmall routes.now }
    ensures { IfOk result (λ text. string_bytes text ≡ compact_text (route_reply number request.now.skip_waypoints telling.now network.now.profile (legs_told (road_of network.now base.now) places.now routes.now) (waypoints_of network.now.segments request.now.points places.now))) }
{
    let mut json = Json::new(alloc);
    let stops = Stops {
        coordinates: request.points.as_slice(),
        places,
    };
    begin_version_reply(&mut json, Code::Ok, number)?;
    json.key("routes")?;
    push_routes(alloc, &mut json, network, base, telling, places, routes)?;
    push_waypoints_member(
        &mut json,
        network,
        request.skip_waypoints,
        "waypoints",
        &stops,
    )?;
    json.end_object()?;
    Ok(json.into_text())
}
