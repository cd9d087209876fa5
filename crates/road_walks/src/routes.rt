//! Least routes between two places.

ghost use Rattle.std.specs.Prelude.{IfOk, IfSome};
ghost use Rattle.road_places.specs.Places.{IsPlaceOn};
ghost use Rattle.road_walks.specs.Least.{IsRouteAnswer, most_units};
ghost use Rattle.search_graph.specs.RoadCosts.{road_cost_ops};

use crate::along_one::along_one;
use crate::by_turns::by_turns;
use crate::cheapest::cheaper;
use customized::Under;
use road_base::Place;
use road_places::Route;
use std::alloc::{AllocError, Global};

/// A least route from a place to another, or None exactly where no permitted walk leads there. What it costs
/// grows with the number of the network's vertices at most. It answers an error only where memory runs out.
pub fn least_route(
    alloc: Global,
    under: &Under<'_>,
    from: Place,
    to: Place,
) -> Result<Option<Route>, AllocError>
    requires from { IsPlaceOn under.now.road.network from }
    requires to { IsPlaceOn under.now.road.network to }
    ensures least { IfOk result (IsRouteAnswer under.now.road from to) }
    ensures bound { IfOk result (λ found. IfSome found (λ route. road_cost_ops.units route.cost (most_units under.now.road.network))) }
{
    let along = along_one(alloc, under.base(), from, to)?;
    let by_turns = by_turns(alloc, under, from, to)?;
    Ok(cheaper(along, by_turns))
}
