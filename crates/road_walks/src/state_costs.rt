//! What a leg costs from each state of a place to each state of another.

ghost use Rattle.std.specs.Prelude.{IfOk};
ghost use Rattle.std.specs.List.{AllZip, Contains};
ghost use Rattle.road_places.specs.Places.{IsPlaceOn};
ghost use Rattle.road_walks.specs.Between.{AreLegCosts, states_of};
ghost use Rattle.road_walks.specs.BetweenParts.{IsCostAlong, IsRowFromState};

use crate::along_one::along_between;
use crate::state_ends::{starts_by_state, targets_by_state};
use crate::states::states_of;
use crate::tables::{cost_of, over_graph};
use customized::Under;
use road_base::Place;
use search_graph::WeightDurLen;
use std::alloc::{AllocError, Global};
use std::thread::Threads;
use table_query::{Row, lesser};

// For each state of the one place what the least walks of two or more vertices to the states of the other cost.
fn rows_by_turns(
    rt: &(impl Threads + Sync),
    alloc: Global,
    under: &Under<'_>,
    from: Place,
    to: Place,
) -> Result<Vec<Row<WeightDurLen>>, AllocError>
    requires from { IsPlaceOn under.now.road.network from }
    requires to { IsPlaceOn under.now.road.network to }
    ensures { IfOk result (λ rows. AllZip (IsRowFromState under.now.road from to) (states_of under.now.road.network from) rows.items) }
{
    let starts = starts_by_state(alloc, under, from)?;
    let targets = targets_by_state(alloc, under, to)?;
    let rows = over_graph(rt, alloc, under, &starts, &targets)?;
    Ok(rows)
}

// What the walk of one vertex costs from the first of two states to the second.
fn cost_along(
    alloc: Global,
    under: &Under<'_>,
    from: Place,
    to: Place,
    ends: (u32, u32),
) -> Result<Option<WeightDurLen>, AllocError>
    requires from { IsPlaceOn under.now.road.network from }
    requires to { IsPlaceOn under.now.road.network to }
    requires first { Contains (states_of under.now.road.network from) ends.0 }
    requires last { Contains (states_of under.now.road.network to) ends.1 }
    ensures { IfOk result (IsCostAlong under.now.road from to ends.0 ends.1) }
{
    let along = along_between(alloc, under, from, to, ends)?;
    Ok(cost_of(along))
}

/// What the least walks of a leg cost from each state of its first place to each of its second's: those from the first
/// state first, and each of these in the order of the states to which they lead; None exactly where no such walk leads
/// there. It answers an error only where memory runs out.
pub fn leg_costs(
    rt: &(impl Threads + Sync),
    alloc: Global,
    under: &Under<'_>,
    from: Place,
    to: Place,
) -> Result<Vec<Option<WeightDurLen>>, AllocError>
    requires from { IsPlaceOn under.now.road.network from }
    requires to { IsPlaceOn under.now.road.network to }
    ensures { IfOk result (λ costs. AreLegCosts under.now.road from to costs.items) }
{
    let by_turns = rows_by_turns(rt, alloc, under, from, to)?;
    let network = under.network();
    let starts = states_of(alloc, network, from)?;
    let ends = states_of(alloc, network, to)?;
    let pairs = starts.len() * ends.len();
    let mut costs = Vec::with_capacity(alloc, pairs)?;
    for pair in 0..pairs {
        let (start, end) = (pair / ends.len(), pair % ends.len());
        let along = cost_along(alloc, under, from, to, (starts[start], ends[end]))?;
        let row = by_turns[start].as_slice();
        costs.push(lesser(along, row[end]))?;
    }
    Ok(costs)
}
