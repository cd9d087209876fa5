//! The legs of routes.

ghost use Rattle.std.specs.Prelude.{◌≡◌, ◌^◌, [], OnOk, codes, map};
ghost use Rattle.json_text.specs.Drafts.{TakesKey, TakesValue, with_value};
ghost use Rattle.json_text.specs.Wholes.{array_of, with_members};
ghost use Rattle.search_graph.specs.RoadCosts.{road_cost_ops};
ghost use Rattle.road_places.specs.Paid.{paid_along};
ghost use Rattle.road_places.specs.Permitted.{IsPermitted};
ghost use Rattle.road_places.specs.Places.{ArePlacesOn, IsPlaceOn};
ghost use Rattle.metric_make.specs.RoadMetric.{road_of};
ghost use Rattle.route_steps.specs.Annotations.{nodes_along};
ghost use Rattle.route_steps.specs.Steps.{steps_along};
ghost use Rattle.reply_texts.specs.Legs.{annotation_value, is_annotated, leg_value};
ghost use Rattle.reply_texts.specs.Optional.{member_if};
ghost use Rattle.reply_texts.specs.RouteLegs.{ArePermitted, AreSmall, leg_told, legs_told};
ghost use Rattle.step_texts.specs.Steps.{driving_side, steps_value};

use crate::annotations::{is_annotated, push_annotation};
use edge_graph::Network;
use json_text::Json;
use metric_make::BaseMetric;
use road_base::Place;
use road_places::Route;
use route_steps::{annotate, steps};
use std::alloc::{AllocError, Global};
use step_texts::{DrivingSide, leg_totals, push_steps, push_totals};
use url_read::{RouteAnnotations, Telling};

// No steps.
fn push_no_steps(json: &mut Json) -> Result<(), AllocError>
    requires { TakesValue json.old }
    ensures { OnOk result (json.new ≡ with_value (array_of []) json.old) }
{
    json.begin_list()?;
    json.end_list()?;
    Ok(())
}

// The steps of a leg from one place to another, where they are asked for.
fn push_leg_steps(
    alloc: Global,
    json: &mut Json,
    network: &Network,
    base: &BaseMetric,
    telling: &Telling,
    ends: (Place, Place),
    route: &Route,
) -> Result<(), AllocError>
    requires takes { TakesValue json.old }
    requires from { IsPlaceOn network.now ends.0 }
    requires to { IsPlaceOn network.now ends.1 }
    requires permitted { IsPermitted (road_of network.now base.now) ends.0 ends.1 route.now.walk route.now.cost }
    requires small { road_cost_ops.units route.now.cost (2 ^ 30) }
    ensures { OnOk result (json.new ≡ with_value (steps_value telling.now.steps telling.now.geometries (driving_side network.now.profile) (steps_along (road_of network.now base.now) ends.0 ends.1 route.now.walk)) json.old) }
{
    if !telling.steps {
        return push_no_steps(json);
    }
    let side = DrivingSide::of(network.profile());
    let told = steps(alloc, base, network, route.walk.as_slice(), ends.0, ends.1)?;
    push_steps(alloc, json, telling.geometries, side, told.as_slice())
}

// The annotation of a leg from one place to another, where some is asked for.
fn push_leg_annotation(
    alloc: Global,
    json: &mut Json,
    network: &Network,
    base: &BaseMetric,
    asked: RouteAnnotations,
    ends: (Place, Place),
    route: &Route,
) -> Result<(), AllocError>
    requires takes { TakesKey json.old }
    requires from { IsPlaceOn network.now ends.0 }
    requires to { IsPlaceOn network.now ends.1 }
    requires permitted { IsPermitted (road_of network.now base.now) ends.0 ends.1 route.now.walk route.now.cost }
    ensures ok { OnOk result (json.new ≡ with_members (member_if (is_annotated asked) (codes "annotation") (annotation_value asked (paid_along base.now.weights ends.0 ends.1 route.now.walk) (nodes_along network.now.segments route.now.walk))) json.old) }
    ensures more { OnOk result (TakesKey json.new) }
{
    if !is_annotated(asked) {
        return Ok(());
    }
    let told = annotate(alloc, base, network, route.walk.as_slice(), ends.0, ends.1)?;
    json.key("annotation")?;
    push_annotation(json, asked, told.paid.as_slice(), told.nodes.as_slice())?;
    Ok(())
}

// A leg from one place to another.
fn push_leg(
    alloc: Global,
    json: &mut Json,
    network: &Network,
    base: &BaseMetric,
    telling: &Telling,
    ends: (Place, Place),
    route: &Route,
) -> Result<(), AllocError>
    requires takes { TakesValue json.old }
    requires from { IsPlaceOn network.now ends.0 }
    requires to { IsPlaceOn network.now ends.1 }
    requires permitted { IsPermitted (road_of network.now base.now) ends.0 ends.1 route.now.walk route.now.cost }
    requires small { road_cost_ops.units route.now.cost (2 ^ 30) }
    ensures { OnOk result (json.new ≡ with_value (leg_value telling.now (driving_side network.now.profile) (leg_told (road_of network.now base.now) (ends, route.now))) json.old) }
{
    json.begin_object()?;
    push_totals(json, leg_totals(route.cost))?;
    json.text_member("summary", "")?;
    json.key("steps")?;
    push_leg_steps(alloc, json, network, base, telling, ends, route)?;
    push_leg_annotation(alloc, json, network, base, telling.annotations, ends, route)?;
    json.end_object()?;
    Ok(())
}

// The legs through these places.
pub(crate) fn push_legs(
    alloc: Global,
    json: &mut Json,
    network: &Network,
    base: &BaseMetric,
    telling: &Telling,
    places: &[Place],
    routes: &[Route],
) -> Result<(), AllocError>
    requires takes { TakesValue json.old }
    requires placed { ArePlacesOn network.now places.now }
    requires permitted { ArePermitted (road_of network.now base.now) places.now routes.now }
    requires small { AreSmall routes.now }
    ensures { OnOk result (json.new ≡ with_value (array_of (map (leg_value telling.now (driving_side network.now.profile)) (legs_told (road_of network.now base.now) places.now routes.now))) json.old) }
{
    json.begin_list()?;
    for leg in 0..routes.len() {
        let ends = (places[leg], places[leg + 1]);
        push_leg(alloc, json, network, base, telling, ends, &routes[leg])?;
    }
    json.end_list()?;
    Ok(())
}
