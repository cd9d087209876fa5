//! What least walks cost from each of a list of places to each of another.

ghost use Rattle.std.specs.Prelude.{◌≡◌, ◌<◌, IfOk, option_map};
ghost use Rattle.std.specs.List.{AllZip, Contains};
ghost use Rattle.search_graph.specs.RoadCosts.{road_cost_ops};
ghost use Rattle.table_query.specs.Tables.{IsTable};
ghost use Rattle.edge_graph.specs.NetworkView.{graph_of};
ghost use Rattle.road_places.specs.Places.{ArePlacesOn, IsPlaceOn};
ghost use Rattle.road_walks.specs.Least.{most_units};
ghost use Rattle.road_walks.specs.TableParts.{IsCellByTurns, IsCellWithin, IsRowByTurns, IsRowWithin};
ghost use Rattle.road_walks.specs.Tables.{AreRowsOf, AreWithin};

use crate::along_one::along_one;
use crate::rows::Rows;
use crate::table_ends::{starts_of, targets_of};
use column_search::Overlay;
use customized::Under;
use plain_search::SearchFault;
use road_base::Place;
use road_places::Route;
use search_graph::WeightDurLen;
use std::alloc::{AllocError, Global};
use std::thread::Threads;
use table_query::{Row, Starts, Targets, lesser, table};

/// What the least walks over the network's graph cost from each list of starts to each list of targets.
pub(crate) fn over_graph(
    rt: &(impl Threads + Sync),
    alloc: Global,
    under: &Under<'_>,
    sources: &[Starts<WeightDurLen>],
    targets: &[Targets<WeightDurLen>],
) -> Result<Vec<Row<WeightDurLen>>, AllocError>
    requires sources { (list : _) (s : _) → Contains sources.now list → Contains list s → (s.vertex < under.now.frame.graph.vertices) × road_cost_ops.units s.cost 1 }
    requires targets { (list : _) (t : _) → Contains targets.now list → Contains list t → (t.vertex < under.now.frame.graph.vertices) × road_cost_ops.units t.cost 1 }
    ensures { IfOk result (λ rows. IsTable road_cost_ops (graph_of under.now.road.network) under.now.road.weights sources.now targets.now rows.items) }
{
    let frame = under.frame();
    let base = under.base();
    let overlay = Overlay {
        frame,
        weights: base.weights(),
        cliques: under.cliques(),
        heads: under.heads(),
    };
    match table(rt, alloc, &overlay, sources, targets) {
        Ok(rows) => Ok(rows),
        Err(SearchFault::Memory) => Err(AllocError),
    }
}

// For each source what the least walks of two or more vertices to the destinations cost.
fn rows_by_turns(
    rt: &(impl Threads + Sync),
    alloc: Global,
    under: &Under<'_>,
    sources: &[Place],
    destinations: &[Place],
) -> Result<Vec<Row<WeightDurLen>>, AllocError>
    requires sources { ArePlacesOn under.now.road.network sources.now }
    requires destinations { ArePlacesOn under.now.road.network destinations.now }
    ensures { IfOk result (λ rows. AllZip (IsRowByTurns under.now.road destinations.now) sources.now rows.items) }
{
    let starts = starts_of(alloc, under, sources)?;
    let targets = targets_of(alloc, under, destinations)?;
    let _small = under.base();
    let _sound = under.network().graph();
    let rows = over_graph(rt, alloc, under, &starts, &targets)?;
    Ok(rows)
}

/// What a route costs, where there is one.
pub(crate) fn cost_of(route: Option<Route>) -> Option<WeightDurLen>
    ensures { result ≡ option_map (λ r. r.cost) route }
{
    let route = route?;
    Some(route.cost)
}

// What the least walk from a place to another costs, where that of two or more vertices costs `by_turns`.
fn cell_of(
    alloc: Global,
    under: &Under<'_>,
    from: Place,
    to: Place,
    by_turns: Option<WeightDurLen>,
) -> Result<Option<WeightDurLen>, AllocError>
    requires from { IsPlaceOn under.now.road.network from }
    requires to { IsPlaceOn under.now.road.network to }
    requires by_turns { IsCellByTurns under.now.road from to by_turns }
    ensures { IfOk result (IsCellWithin under.now.road from to) }
{
    let along = along_one(alloc, under.base(), from, to)?;
    let along = cost_of(along);
    Ok(lesser(along, by_turns))
}

// The row of a source, where the least walks of two or more vertices cost `by_turns`.
fn row_of(
    alloc: Global,
    under: &Under<'_>,
    from: Place,
    destinations: &[Place],
    by_turns: &[Option<WeightDurLen>],
) -> Result<Row<WeightDurLen>, AllocError>
    requires from { IsPlaceOn under.now.road.network from }
    requires destinations { ArePlacesOn under.now.road.network destinations.now }
    requires by_turns { IsRowByTurns under.now.road destinations.now from by_turns.now }
    ensures { IfOk result (IsRowWithin under.now.road destinations.now from) }
{
    let mut values = Vec::with_capacity(alloc, destinations.len())?;
    for column in 0..destinations.len() {
        let value = cell_of(alloc, under, from, destinations[column], by_turns[column])?;
        values.push(value)?;
    }
    Ok(Row::of(values))
}

/// For each of the sources a row, and in it for each of the destinations the least that a permitted walk from the
/// one to the other costs, or None exactly where no permitted walk leads there. What each costs grows with the
/// number of the network's vertices at most. The rows are made side by side in threads. It answers an error only where
/// memory runs out.
pub fn cost_rows(
    rt: &(impl Threads + Sync),
    alloc: Global,
    under: &Under<'_>,
    sources: &[Place],
    destinations: &[Place],
) -> Result<Rows, AllocError>
    requires sources { ArePlacesOn under.now.road.network sources.now }
    requires destinations { ArePlacesOn under.now.road.network destinations.now }
    ensures least { IfOk result (AreRowsOf under.now.road sources.now destinations.now) }
    ensures bound { IfOk result (AreWithin (most_units under.now.road.network)) }
{
    let by_turns = rows_by_turns(rt, alloc, under, sources, destinations)?;
    let mut rows = Vec::with_capacity(alloc, sources.len())?;
    for number in 0..sources.len() {
        let values = by_turns[number].as_slice();
        let row = row_of(alloc, under, sources[number], destinations, values)?;
        rows.push(row)?;
    }
    Ok(Rows::of(rows))
}
