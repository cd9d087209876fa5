//! What the vertices of a network cost by its profile.

ghost use Rattle.std.specs.Prelude.{◌≡◌, ◌*◌, ◌^◌, ◌<◌, [], IfOk, Some, All, length, map, option_map};
ghost use Rattle.std.specs.List.{slice_get};
ghost use Rattle.std.specs.Option.{ForSome};
ghost use Rattle.edge_graph.specs.NetworkView.{vertices_of};
ghost use Rattle.metric_make.specs.MetricOf.{IsShort, cost_at, cost_of, rate_weight, vertex_cost, vertex_weight};
ghost use Rattle.search_graph.specs.RoadCosts.{road_cost_ops};
ghost use Rattle.traffic_files.specs.Ranges.{IsRate};
ghost use Rattle.way_profile.specs.Vehicle.{IsSpeed};

use cost_lists::CostList;
use edge_graph::Network;
use geo_integer::length;
use search_graph::WeightDurLen;
use std::alloc::{AllocError, Global};

// What so many decimetres weigh at a rate.
fn rate_weight(decimetres: u64, rate: u32) -> u64
    requires rate { IsRate rate }
    requires length { decimetres < 2 ^ 29 }
    ensures value { result ≡ rate_weight decimetres rate }
    ensures short { result < 2 ^ 31 }
{
    (decimetres * 1000 / u64::from(rate)).max(1)
}

// What so many decimetres weigh that take so many deciseconds.
fn vertex_weight(by_distance: bool, decimetres: u64, deciseconds: u64, rate: Option<u32>) -> u64
    requires rate { ForSome rate IsRate }
    requires length { decimetres < 2 ^ 29 }
    requires duration { deciseconds < 2 ^ 31 }
    ensures value { result ≡ vertex_weight by_distance decimetres deciseconds rate }
    ensures short { result < 2 ^ 31 }
{
    match rate {
        Some(rate) => rate_weight(decimetres, rate),
        None if by_distance => decimetres,
        None => deciseconds,
    }
}

/// What so many decimetres cost at a speed, and at a rate where there is one.
pub(crate) fn cost_of(
    by_distance: bool,
    decimetres: u64,
    speed: u32,
    rate: Option<u32>,
) -> WeightDurLen
    requires speed { IsSpeed speed }
    requires rate { ForSome rate IsRate }
    requires length { decimetres < 2 ^ 29 }
    ensures value { result ≡ cost_of by_distance decimetres speed rate }
    ensures unit { road_cost_ops.units result 1 }
    ensures short { IsShort result }
{
    let duration = (decimetres * 3600 / u64::from(speed)).max(1);
    WeightDurLen {
        weight: vertex_weight(by_distance, decimetres, duration, rate),
        duration,
        length: decimetres,
    }
}

// What a vertex of this length costs by the profile.
fn cost(network: &Network, v: u32, decimetres: u64) -> Option<WeightDurLen>
    requires vertex { v < 2 * length network.now.segments }
    requires length { decimetres < 2 ^ 29 }
    ensures value { option_map (cost_at network.now.profile.by_distance [] decimetres) (slice_get (vertices_of network.now) v) ≡ Some result }
    ensures unit { ForSome result (λ x. road_cost_ops.units x 1) }
    ensures short { ForSome result IsShort }
{
    if network.permitted(v) {
        let by_distance = network.profile().by_distance();
        Some(cost_of(by_distance, decimetres, network.speed(v), None))
    } else {
        None
    }
}

/// What each vertex costs by the profile. Both directions of a segment are equally long. There is room behind them for
/// the copies.
pub(crate) fn vertex_costs(
    alloc: Global,
    network: &Network,
) -> Result<CostList<WeightDurLen>, AllocError>
    ensures value { IfOk result (λ costs. costs ≡ map (vertex_cost network.now.profile.by_distance []) (vertices_of network.now)) }
    ensures unit { IfOk result (λ costs. All (λ o. ForSome o (λ x. road_cost_ops.units x 1)) costs) }
    ensures short { IfOk result (λ costs. All (λ o. ForSome o IsShort) costs) }
{
    let mut costs = CostList::with_capacity(alloc, network.graph().vertices() as usize)?;
    for s in 0..network.segments() {
        let (from, to) = network.ends(s);
        let decimetres = length(from, to);
        costs.push(cost(network, 2 * s, decimetres))?;
        costs.push(cost(network, 2 * s + 1, decimetres))?;
    }
    Ok(costs)
}
