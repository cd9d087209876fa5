//! What a walk meets at its turns.

ghost use Rattle.std.specs.Prelude.{◌≡◌, ◌*◌, ◌<◌, List, All, IfOk, length};
ghost use Rattle.search_graph.specs.declared.costs.WeightDurLen.{WeightDurLen};
ghost use Rattle.road_places.specs.Paid.{AreTurnsAlong, IsTurnCosting};
ghost use Rattle.metric_make.specs.RoadMetric.{road_of};
ghost use Rattle.route_steps.specs.Turnings.{bearing_on, turn_paid, turn_told, turns_paid};

use crate::maneuvers::{ManeuverKind, told, told_round};
use crate::roundabouts::is_round;
use edge_graph::Network;
use geo_integer::{bearing, modifier};
use metric_make::BaseMetric;
use road_base::Modifier;
use road_turns::other_way;
use search_graph::{Cost, WeightDurLen};
use std::alloc::{AllocError, Global};

/// The bearing of a vertex from where it begins to where it ends, in whole degrees, below 360.
pub(crate) fn bearing_on(network: &Network, v: u32) -> u32
    requires { v < 2 * length network.now.segments }
    ensures value { result ≡ bearing_on network.now v }
    ensures bound { result < 360 }
{
    let (from, to) = network.ends(v / 2);
    if v % 2 == 0 {
        bearing(from, to)
    } else {
        bearing(to, from)
    }
}

/// What a driver is told of the turn from vertex `d` onto vertex `e`, or None where nothing.
pub(crate) fn turn_told(network: &Network, d: u32, e: u32) -> Option<(ManeuverKind, Modifier)>
    requires before { d < 2 * length network.now.segments }
    requires after { e < 2 * length network.now.segments }
    ensures { result ≡ turn_told network.now d e }
{
    let back = e == other_way(d);
    let bend = modifier(bearing_on(network, d), bearing_on(network, e), back);
    let same_name = network.name(d) == network.name(e);
    let by_table = told(back, network.exits(d) >= 2, same_name, bend);
    told_round(
        back,
        is_round(network, d),
        is_round(network, e),
        by_table,
        bend,
    )
}

// What the turn from one vertex onto another costs.
fn turn_cost(base: &BaseMetric, network: &Network, d: u32, e: u32) -> WeightDurLen
    requires before { d < 2 * length network.now.segments }
    requires turn { (cost : WeightDurLen) × IsTurnCosting (road_of network.now base.now) (d, e) cost }
    ensures { result ≡ turn_paid (road_of network.now base.now) (d, e) }
{
    match network.turn(d, e) {
        Some(turn) => base.turn(turn),
        None => WeightDurLen::ZERO,
    }
}

/// What a walk pays at its turns, one from each vertex to the next. It answers an error only where memory runs out.
pub(crate) fn turns_paid(
    alloc: Global,
    base: &BaseMetric,
    network: &Network,
    walk: &[u32],
) -> Result<Vec<WeightDurLen>, AllocError>
    requires some { 0 < length walk.now }
    requires in_range { All (λ v. v < 2 * length network.now.segments) walk.now }
    requires turns { (costs : List WeightDurLen) × AreTurnsAlong (road_of network.now base.now) walk.now costs }
    ensures { IfOk result (λ turns. turns.items ≡ turns_paid (road_of network.now base.now) walk.now) }
{
    let mut turns = Vec::with_capacity(alloc, walk.len() - 1)?;
    for k in 0..walk.len() - 1 {
        turns.push(turn_cost(base, network, walk[k], walk[k + 1]))?;
    }
    Ok(turns)
}
