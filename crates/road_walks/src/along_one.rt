//! Walks of one vertex, which lead from a place to one farther on along the same segment.

ghost use Rattle.std.specs.Prelude.{◌≡◌, ◌+◌, ◌*◌, ◌^◌, ◌<◌, ◌≤◌, IfOk, IfSome, length};
ghost use Rattle.std.specs.List.{Contains};
ghost use Rattle.search_graph.specs.RoadCosts.{road_cost_ops};
ghost use Rattle.road_places.specs.Permitted.{IsAlong, IsAlongOne};
ghost use Rattle.road_places.specs.Places.{IsDirection, IsPlaceOn, before};
ghost use Rattle.road_walks.specs.Between.{IsAlongBetween, states_of};
ghost use Rattle.road_walks.specs.Choosing.{IsLeastOf};

use crate::cheapest::cheaper;
use customized::Under;
use metric_make::BaseMetric;
use road_base::Place;
use road_places::{Route, Walk, before, parts_along};
use search_graph::{Cost, WeightDurLen};
use std::alloc::{AllocError, Global};

/// The least walk of one vertex from a place to another, or None where there is none.
pub(crate) fn along_one(
    alloc: Global,
    base: &BaseMetric,
    from: Place,
    to: Place,
) -> Result<Option<Route>, AllocError>
    requires few { from.segment < 2 ^ 30 }
    requires in_range { 2 * from.segment + 1 < length base.now.weights.vertex }
    requires from { from.at ≤ 1024 }
    requires to { to.at ≤ 1024 }
    ensures least { IfOk result (IsLeastOf (IsAlongOne base.now.weights from to)) }
    ensures unit { IfOk result (λ found. IfSome found (λ route. road_cost_ops.units route.cost 1)) }
{
    if from.segment != to.segment {
        return Ok(None);
    }
    let forward = along(alloc, base, from, to, 2 * from.segment)?;
    let backward = along(alloc, base, from, to, 2 * from.segment + 1)?;
    Ok(cheaper(forward, backward))
}

/// The walk of one vertex from the first of two states to the second, which are one and the same, or None where there is
/// none.
pub(crate) fn along_between(
    alloc: Global,
    under: &Under<'_>,
    from: Place,
    to: Place,
    ends: (u32, u32),
) -> Result<Option<Route>, AllocError>
    requires from { IsPlaceOn under.now.road.network from }
    requires to { IsPlaceOn under.now.road.network to }
    requires first { Contains (states_of under.now.road.network from) ends.0 }
    requires last { Contains (states_of under.now.road.network to) ends.1 }
    ensures least { IfOk result (IsLeastOf (IsAlongBetween under.now.road from to ends.0 ends.1)) }
    ensures unit { IfOk result (λ found. IfSome found (λ route. road_cost_ops.units route.cost 1)) }
{
    if ends.0 != ends.1 {
        return Ok(None);
    }
    let base = under.base();
    let vertex = under.network().stands_for(ends.0);
    let alone = along(alloc, base, from, to, vertex)?;
    Ok(alone)
}

// The walk of this vertex alone, where there is one.
fn along(
    alloc: Global,
    base: &BaseMetric,
    from: Place,
    to: Place,
    vertex: u32,
) -> Result<Option<Route>, AllocError>
    requires in_range { vertex < length base.now.weights.vertex }
    requires begins { IsDirection from.segment vertex }
    requires ends { IsDirection to.segment vertex }
    requires from { from.at ≤ 1024 }
    requires to { to.at ≤ 1024 }
    ensures least { IfOk result (IsLeastOf (IsAlong base.now.weights from to vertex)) }
    ensures unit { IfOk result (λ found. IfSome found (λ route. road_cost_ops.units route.cost 1)) }
{
    let first = parts_along(from, vertex);
    let last = parts_along(to, vertex);
    let Some(cost) = base.vertex(vertex) else {
        return Ok(None);
    };
    if last < first {
        return Ok(None);
    }
    let walk = Walk::of(Vec::from_slice(alloc, &[vertex])?);
    let cost = between(cost, first, last);
    Ok(Some(Route { cost, walk }))
}

// What a vertex costs from the first to the last of these 1024ths.
fn between(cost: WeightDurLen, first: u32, last: u32) -> WeightDurLen
    requires small { road_cost_ops.units cost 1 }
    requires order { first ≤ last }
    requires within { last ≤ 1024 }
    ensures value { before cost last ≡ road_cost_ops.plus (before cost first) result }
    ensures unit { road_cost_ops.units result 1 }
{
    before(cost, last).minus(before(cost, first))
}
