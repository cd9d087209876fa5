//! What the turns of a network cost by its profile.

ghost use Rattle.std.specs.Prelude.{◌≡◌, ◌+◌, ◌*◌, ◌<◌, ◌≤◌, [], IfOk, All, length, map};
ghost use Rattle.std.specs.List.{slice_get};
ghost use Rattle.edge_graph.specs.NetworkView.{vertices_of};
ghost use Rattle.geo_integer.specs.Bearing.{bearing_of};
ghost use Rattle.geo_integer.specs.Position.{position_of};
ghost use Rattle.metric_make.specs.MetricOf.{bearing_along, turn_cost, turn_cost_of, turn_weight};
ghost use Rattle.metric_make.specs.TurnParts.{turning_at, waiting_at};
ghost use Rattle.search_graph.specs.RoadCosts.{road_cost_ops};

use crate::copies::turn_at;
use cost_lists::FullCostList;
use edge_graph::Network;
use geo_integer::{bearing, modifier};
use road_base::Point;
use road_turns::other_way;
use search_graph::WeightDurLen;
use std::alloc::{AllocError, Global};

// The bearing from `to` to `from`, by the one there: the other way round, where the points lie at two latitudes.
fn bearing_back(from: Point, to: Point, there: u32) -> u32
    requires { there ≡ bearing_of (position_of from) (position_of to) }
    ensures { result ≡ bearing_of (position_of to) (position_of from) }
{
    if from.lat == to.lat {
        bearing(to, from)
    } else {
        (there + 180) % 360
    }
}

// The bearing of each vertex from its tail to its head, in degrees.
fn bearings_of(alloc: Global, network: &Network) -> Result<Vec<u32>, AllocError>
    ensures { IfOk result (λ bearings. bearings.items ≡ map bearing_along (vertices_of network.now)) }
{
    let mut bearings = Vec::with_capacity(alloc, 2 * network.segments() as usize)?;
    for s in 0..network.segments() {
        let (from, to) = network.ends(s);
        let there = bearing(from, to);
        bearings.push(there)?;
        bearings.push(bearing_back(from, to, there))?;
    }
    Ok(bearings)
}

// The profile's penalty of a turn but for signals.
fn turning(network: &Network, bearings: &[u32], from: u32, to: u32) -> u32
    requires bearings { bearings.now ≡ map bearing_along (vertices_of network.now) }
    requires from { from < 2 * length network.now.segments }
    requires to { to < 2 * length network.now.segments }
    ensures value { result ≡ turning_at network.now from to (slice_get (vertices_of network.now) from) (slice_get (vertices_of network.now) to) }
    ensures bound { result ≤ 1000000 }
{
    if to == other_way(from) {
        return network.profile().u_turn();
    }
    if network.exits(from) < 2 {
        return 0;
    }
    let bend = modifier(bearings[from as usize], bearings[to as usize], false);
    network.profile().penalty(bend)
}

// The penalty of a turn from a vertex for the signal at its head, if there is one.
fn waiting(network: &Network, from: u32) -> u32
    requires { from < 2 * length network.now.segments }
    ensures value { result ≡ waiting_at network.now (slice_get (vertices_of network.now) from) }
    ensures bound { result ≤ 1000000 }
{
    if network.signal(from) {
        network.profile().signal()
    } else {
        0
    }
}

// The profile's penalty of a turn.
fn profile_penalty(network: &Network, bearings: &[u32], from: u32, to: u32) -> u32
    requires bearings { bearings.now ≡ map bearing_along (vertices_of network.now) }
    requires from { from < 2 * length network.now.segments }
    requires to { to < 2 * length network.now.segments }
    ensures value { result ≡ turning_at network.now from to (slice_get (vertices_of network.now) from) (slice_get (vertices_of network.now) to) + waiting_at network.now (slice_get (vertices_of network.now) from) }
    ensures bound { result ≤ 2000000 }
{
    turning(network, bearings, from, to) + waiting(network, from)
}

// What a turn of this penalty weighs.
fn turn_weight(by_distance: bool, penalty: u32, weight: Option<u32>) -> u32
    ensures { result ≡ turn_weight by_distance penalty weight }
{
    match weight {
        Some(weight) => weight,
        None if by_distance => 0,
        None => penalty,
    }
}

/// What a turn of this penalty costs, and of this weight where there is one.
pub(crate) fn turn_cost_of(by_distance: bool, penalty: u32, weight: Option<u32>) -> WeightDurLen
    ensures value { result ≡ turn_cost_of by_distance penalty weight }
    ensures unit { road_cost_ops.units result 1 }
{
    WeightDurLen {
        weight: u64::from(turn_weight(by_distance, penalty, weight)),
        duration: u64::from(penalty),
        length: 0,
    }
}

/// What each turn costs by the profile. There is room behind them for the arcs out of copies.
pub(crate) fn turn_costs(
    alloc: Global,
    network: &Network,
) -> Result<FullCostList<WeightDurLen>, AllocError>
    ensures value { IfOk result (λ costs. costs ≡ map (turn_cost network.now []) network.now.turns) }
    ensures unit { IfOk result (λ costs. All (λ a. road_cost_ops.units a 1) costs) }
{
    let bearings = bearings_of(alloc, network)?;
    let by_distance = network.profile().by_distance();
    let mut costs = FullCostList::with_capacity(alloc, network.graph().arcs() as usize)?;
    for i in 0..network.turns() {
        let (from, to) = turn_at(network, i);
        let penalty = profile_penalty(network, &bearings, from, to);
        costs.push(turn_cost_of(by_distance, penalty, None))?;
    }
    Ok(costs)
}
