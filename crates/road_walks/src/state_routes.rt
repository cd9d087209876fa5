//! Least routes from one state of a place to one state of another.

ghost use Rattle.std.specs.Prelude.{IfOk, IfSome};
ghost use Rattle.std.specs.List.{Contains};
ghost use Rattle.road_places.specs.Places.{IsPlaceOn};
ghost use Rattle.road_walks.specs.Between.{IsByTurnsBetween, IsRouteBetween, states_of};
ghost use Rattle.road_walks.specs.Choosing.{IsLeastOf};
ghost use Rattle.road_walks.specs.Least.{most_units};
ghost use Rattle.search_graph.specs.RoadCosts.{road_cost_ops};

use crate::along_one::along_between;
use crate::by_turns::over_graph;
use crate::cheapest::{cheaper, route_of};
use crate::state_ends::{starts_at, targets_at};
use customized::Under;
use road_base::Place;
use road_places::Route;
use std::alloc::{AllocError, Global};

// The least walk of two or more vertices from the first of two states to the second, or None where there is none.
fn by_turns_between(
    alloc: Global,
    under: &Under<'_>,
    from: Place,
    to: Place,
    ends: (u32, u32),
) -> Result<Option<Route>, AllocError>
    requires from { IsPlaceOn under.now.road.network from }
    requires to { IsPlaceOn under.now.road.network to }
    requires first { Contains (states_of under.now.road.network from) ends.0 }
    requires last { Contains (states_of under.now.road.network to) ends.1 }
    ensures least { IfOk result (IsLeastOf (IsByTurnsBetween under.now.road from to ends.0 ends.1)) }
    ensures bound { IfOk result (λ found. IfSome found (λ route. road_cost_ops.units route.cost (most_units under.now.road.network))) }
{
    let starts = starts_at(alloc, under, from, ends.0)?;
    let targets = targets_at(alloc, under, to, ends.1)?;
    let _small = under.base();
    let found = over_graph(alloc, under, &starts, &targets)?;
    Ok(route_of(under.network(), found))
}

/// A least of the walks from a place to another that lead from the first of two states to the second, or None exactly where
/// there is no such walk. `ends` are these: a state of each place. What it costs grows with the number of the network's
/// vertices at most. It answers an error only where memory runs out.
pub fn least_route_between(
    alloc: Global,
    under: &Under<'_>,
    from: Place,
    to: Place,
    ends: (u32, u32),
) -> Result<Option<Route>, AllocError>
    requires from { IsPlaceOn under.now.road.network from }
    requires to { IsPlaceOn under.now.road.network to }
    requires first { Contains (states_of under.now.road.network from) ends.0 }
    requires last { Contains (states_of under.now.road.network to) ends.1 }
    ensures least { IfOk result (IsRouteBetween under.now.road from to ends.0 ends.1) }
    ensures bound { IfOk result (λ found. IfSome found (λ route. road_cost_ops.units route.cost (most_units under.now.road.network))) }
{
    let along = along_between(alloc, under, from, to, ends)?;
    let by_turns = by_turns_between(alloc, under, from, to, ends)?;
    Ok(cheaper(along, by_turns))
}
