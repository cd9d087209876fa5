//! The best order of places, by what least walks between them cost.

ghost use Rattle.std.specs.Prelude.{◌≡◌, ◌^◌, ◌≤◌, All, IfOk, IfSome, length};
ghost use Rattle.search_graph.specs.RoadCosts.{road_cost_ops};
ghost use Rattle.trip_query.specs.Trips.{IsBestTrip, lists_of};
ghost use Rattle.road_places.specs.Places.{ArePlacesOn};
ghost use Rattle.road_walks.specs.Tables.{AreWithin};
ghost use Rattle.road_trips.specs.Trips.{IsBestThrough};

use customized::Under;
use road_base::Place;
use road_walks::{Rows, cost_rows};
use search_graph::WeightDurLen;
use std::alloc::{AllocError, Global};
use std::thread::Threads;
use trip_query::{Rule, Trip, best};

// The rows of a table, as vectors.
fn vectors_of(alloc: Global, rows: &Rows) -> Result<Vec<Vec<Option<WeightDurLen>>>, AllocError>
    ensures { IfOk result (λ vectors. lists_of vectors.items ≡ rows.now) }
{
    let mut vectors = Vec::with_capacity(alloc, rows.len())?;
    let all = rows.as_slice();
    for row in all {
        vectors.push(Vec::from_slice(alloc, row.as_slice())?)?;
    }
    Ok(vectors)
}

// The best trip by the rows of a table.
fn best_by(alloc: Global, rows: &Rows, rule: Rule) -> Result<Option<Trip<WeightDurLen>>, AllocError>
    requires some { 2 ≤ length rows.now }
    requires few { length rows.now ≤ 9 }
    requires square { All (λ row. length row ≡ length rows.now) rows.now }
    requires units { AreWithin (2 ^ 27) rows.now }
    ensures best { IfOk result (IsBestTrip road_cost_ops rows.now rule) }
    ensures size { IfOk result (λ answer. IfSome answer (λ trip. length trip.order ≡ length rows.now)) }
{
    let vectors = vectors_of(alloc, rows)?;
    best(alloc, &vectors, rule)
}

/// The best trip through these places, with its order.
pub(crate) fn best_order(
    rt: &(impl Threads + Sync),
    alloc: Global,
    under: &Under<'_>,
    places: &[Place],
    rule: Rule,
) -> Result<Option<Trip<WeightDurLen>>, AllocError>
    requires some { 2 ≤ length places.now }
    requires few { length places.now ≤ 9 }
    requires placed { ArePlacesOn under.now.road.network places.now }
    ensures best { IfOk result (IsBestThrough under.now.road places.now rule) }
    ensures size { IfOk result (λ answer. IfSome answer (λ trip. length trip.order ≡ length places.now)) }
{
    // so few vertices of the searched graph that no least walk costs too many units
    let _few = under.network().graph();
    let rows = cost_rows(rt, alloc, under, places, places)?;
    best_by(alloc, &rows, rule)
}
