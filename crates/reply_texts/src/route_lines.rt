//! The points of routes.

ghost use Rattle.std.specs.Prelude.{◌≡◌, IfOk, OnOk, codes, map};
ghost use Rattle.json_text.specs.Drafts.{TakesKey};
ghost use Rattle.json_text.specs.Wholes.{optional_member, with_members};
ghost use Rattle.road_places.specs.Places.{ArePlacesOn};
ghost use Rattle.metric_make.specs.RoadMetric.{road_of};
ghost use Rattle.route_steps.specs.Steps.{joined};
ghost use Rattle.step_texts.specs.Lines.{overview_line};
ghost use Rattle.reply_texts.specs.Legs.{points_behind};
ghost use Rattle.reply_texts.specs.RouteLegs.{ArePermitted, legs_told};

use edge_graph::Network;
use json_text::Json;
use metric_make::BaseMetric;
use road_base::{Place, Point};
use road_places::Route;
use route_steps::leg_points;
use std::alloc::{AllocError, Global};
use step_texts::push_overview;
use url_read::{Overview, Telling};

// The points of the leg of this number, from 0, that stand behind those of the legs before it.
fn later_points(leg: usize, points: &[Point]) -> &[Point]
    ensures { result.now ≡ points_behind leg points.now }
{
    match points {
        [_, later @ ..] if leg > 0 => later,
        _ => points,
    }
}

// The points of the line through all legs.
fn line_points(
    alloc: Global,
    network: &Network,
    base: &BaseMetric,
    places: &[Place],
    routes: &[Route],
) -> Result<Vec<Point>, AllocError>
    requires placed { ArePlacesOn network.now places.now }
    requires permitted { ArePermitted (road_of network.now base.now) places.now routes.now }
    ensures { IfOk result (λ points. points.items ≡ joined (map (λ leg. leg.points) (legs_told (road_of network.now base.now) places.now routes.now))) }
{
    let mut points = Vec::new(alloc);
    for leg in 0..routes.len() {
        let walk = routes[leg].walk.as_slice();
        let told = leg_points(alloc, network, walk, places[leg], places[leg + 1])?;
        points.extend_from_slice(later_points(leg, told.as_slice()))?;
    }
    Ok(points)
}

// As much of the line through all legs as is asked for.
pub(crate) fn push_route_line(
    alloc: Global,
    json: &mut Json,
    network: &Network,
    base: &BaseMetric,
    telling: &Telling,
    places: &[Place],
    routes: &[Route],
) -> Result<(), AllocError>
    requires takes { TakesKey json.old }
    requires placed { ArePlacesOn network.now places.now }
    requires permitted { ArePermitted (road_of network.now base.now) places.now routes.now }
    ensures ok { OnOk result (json.new ≡ with_members (optional_member (codes "geometry") (overview_line telling.now.overview telling.now.geometries (joined (map (λ leg. leg.points) (legs_told (road_of network.now base.now) places.now routes.now))))) json.old) }
    ensures more { OnOk result (TakesKey json.new) }
{
    if telling.overview == Overview::Off {
        return Ok(());
    }
    let points = line_points(alloc, network, base, places, routes)?;
    push_overview(
        alloc,
        json,
        telling.overview,
        telling.geometries,
        points.as_slice(),
    )
}
