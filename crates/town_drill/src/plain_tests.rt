//! The drill by another search: each trip over all turns at once, without cells or shortcuts.

ghost use Rattle.std.specs.Prelude.{◌≡◌, ◌≤◌, ◌<◌};
ghost use Rattle.edge_graph.specs.NetworkView.{graph_of};
ghost use Rattle.road_places.specs.Places.{IsPlaceOn};
ghost use Rattle.search_graph.specs.RoadCosts.{road_cost_ops};
ghost use Rattle.search_graph.specs.Weighted.{AreSmall};
ghost use Rattle.snap_index.specs.Ends.{all_ends};

use crate::asked::{node_point, start_of, stop_of};
use crate::drill;
use crate::drills::load_town;
use crate::metrics::metric_of;
use crate::telling::line;
use crate::trips::{Trip, place_at};
use customized::{Roads, Under};
use plain_search::{SearchFault, least_from};
use road_base::{Place, Point};
use road_places::{start_at, target_at};
use search_graph::{Graph, Start, Target, WeightDurLen, Weights};
use snap_index::Grid;
use std::alloc::{AllocError, Global};
use std::process::Abort;
use std::thread::Threads;

/// The town's number.
const TOWN: u32 = 20;

/// The most that a start or a target may ask of each part.
const UNIT: u64 = 1 << 32;

// What a least walk from a start to a target costs, or None where there is none.
fn least_cost(
    rt: &impl Abort,
    alloc: Global,
    graph: &Graph,
    weights: &Weights<WeightDurLen>,
    start: Start<WeightDurLen>,
    target: Target<WeightDurLen>,
) -> Result<Option<WeightDurLen>, AllocError>
    requires { AreSmall road_cost_ops graph.now weights.now }
{
    assert!(rt; start.vertex < graph.vertices() && target.vertex < graph.vertices());
    assert!(rt; start.cost.weight <= UNIT && target.cost.weight <= UNIT);
    assert!(rt; start.cost.duration <= UNIT && start.cost.length <= UNIT);
    assert!(rt; target.cost.duration <= UNIT && target.cost.length <= UNIT);
    let found = match least_from(alloc, graph, weights, &[start], &[target]) {
        Ok(found) => found,
        Err(SearchFault::Memory) => return Err(AllocError),
    };
    assert!(rt; found.len() == 1);
    match &found[0] {
        Some(found) => Ok(Some(found.cost)),
        None => Ok(None),
    }
}

// What a least walk costs that leaves a place along one vertex and comes to another along one.
fn cost_between(
    rt: &impl Abort,
    alloc: Global,
    under: &Under<'_>,
    from: (Place, u32),
    to: (Place, u32),
) -> Result<Option<WeightDurLen>, AllocError> {
    let graph = under.frame().graph();
    let base = under.base();
    assert!(rt; from.0.at <= 1024 && from.1 < graph.vertices());
    assert!(rt; to.0.at <= 1024 && to.1 < graph.vertices());
    let start = start_at(base, from.0, from.1);
    let target = target_at(base, to.0, to.1);
    match (start, target) {
        (Some(start), Some(target)) => {
            least_cost(rt, alloc, graph, base.weights(), start, target)
        }
        _ => Ok(None),
    }
}

// The lesser of two costs.
fn lesser(a: Option<WeightDurLen>, b: Option<WeightDurLen>) -> Option<WeightDurLen> {
    match (a, b) {
        (Some(first), Some(second)) => Some(if second < first { second } else { first }),
        (Some(only), None) | (None, Some(only)) => Some(only),
        (None, None) => None,
    }
}

// What a least walk between two places costs. They lie on two segments here, so each walk takes a turn.
fn cost_of(
    rt: &impl Abort,
    alloc: Global,
    under: &Under<'_>,
    from: Place,
    to: Place,
) -> Result<Option<WeightDurLen>, AllocError> {
    assert!(rt; from.segment != to.segment);
    assert!(rt; from.segment < 1 << 30 && to.segment < 1 << 30);
    let (ahead, back) = (2 * from.segment, 2 * from.segment + 1);
    let (there, over) = (2 * to.segment, 2 * to.segment + 1);
    let first = cost_between(rt, alloc, under, (from, ahead), (to, there))?;
    let second = cost_between(rt, alloc, under, (from, ahead), (to, over))?;
    let third = cost_between(rt, alloc, under, (from, back), (to, there))?;
    let fourth = cost_between(rt, alloc, under, (from, back), (to, over))?;
    Ok(lesser(lesser(first, second), lesser(third, fourth)))
}

// What comes of a trip from one point to another.
fn plain_trip(
    rt: &impl Abort,
    alloc: Global,
    under: &Under<'_>,
    grid: &Grid,
    from: Point,
    to: Point,
) -> Result<Trip, AllocError>
    requires { grid.now ≡ all_ends under.now.road.network.segments }
{
    match (place_at(under, grid, from), place_at(under, grid, to)) {
        (Some(start), Some(stop)) => match cost_of(rt, alloc, under, start, stop)? {
            Some(cost) => Ok(Trip::Arrives(cost.duration)),
            None => Ok(Trip::NoRoute),
        },
        _ => Ok(Trip::NoPlace),
    }
}

// The line of the trips under the metric of this number.
fn trips_line(
    rt: &impl Abort,
    alloc: Global,
    under: &Under<'_>,
    grid: &Grid,
    number: u32,
) -> Result<String, AllocError>
    requires grid { grid.now ≡ all_ends under.now.road.network.segments }
    requires number { number < 4 }
{
    let mut trips = Vec::new(alloc);
    for trip in 0..16 {
        let from = node_point(TOWN, start_of(TOWN, number, trip));
        let to = node_point(TOWN, stop_of(TOWN, number, trip));
        trips.push(plain_trip(rt, alloc, under, grid, from, to)?)?;
    }
    assert!(rt; trips.len() == 16);
    line(alloc, number, &trips)
}

// The line on the metric of this number.
fn plain_line(
    rt: &(impl Threads + Abort + Sync),
    alloc: Global,
    roads: &Roads,
    grid: &Grid,
    number: u32,
) -> Result<String, AllocError>
    requires grid { grid.now ≡ all_ends roads.now.network.segments }
    requires number { number < 4 }
{
    let metric = metric_of(rt, alloc, roads, TOWN, number)?;
    trips_line(rt, alloc, &metric.under(None), grid, number)
}

// The lines on all metrics of roads.
fn lines_under(
    rt: &(impl Threads + Abort + Sync),
    alloc: Global,
    roads: &Roads,
    grid: &Grid,
) -> Result<String, AllocError>
    requires { grid.now ≡ all_ends roads.now.network.segments }
{
    let mut text = String::new(alloc);
    for number in 0..4 {
        text.push_str(&plain_line(rt, alloc, roads, grid, number)?)?;
    }
    Ok(text)
}

// The same, with their grid made.
fn lines_on(
    rt: &(impl Threads + Abort + Sync),
    alloc: Global,
    roads: &Roads,
) -> Result<String, AllocError> {
    let grid = Grid::of(alloc, roads.network())?;
    lines_under(rt, alloc, roads, &grid)
}

// The lines on all metrics. Each function here that owns a network, roads or a metric has one exit behind it, since a proof
// takes time for each.
fn plain_lines(rt: &(impl Threads + Abort + Sync), alloc: Global) -> Result<String, AllocError> {
    let Ok(network) = load_town(alloc, TOWN) else {
        return Err(AllocError);
    };
    let roads = Roads::for_server(alloc, network)?;
    lines_on(rt, alloc, &roads)
}

#[test]
fn a_drill_is_that_of_plain_search(rt: HostRuntime) -> Result<(), AllocError> {
    let alloc = rt.alloc();
    let Ok(text) = drill(&rt, alloc, TOWN) else {
        return Err(AllocError);
    };
    assert_eq!(rt; plain_lines(&rt, alloc)?, text);
    Ok(())
}
