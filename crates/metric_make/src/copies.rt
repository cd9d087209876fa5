//! The graph that is searched has copies of vertices, and arcs out of them. A copy costs what its vertex does, and an
//! arc what the turn does for which it stands. Where there are no copies nothing is done.

ghost use Rattle.std.specs.Prelude.{◌≡◌, ℕ, ◌*◌, ◌<◌, IfOk, OnOk, Some, All, length, map};
ghost use Rattle.std.specs.List.{slice_get};
ghost use Rattle.edge_graph.specs.NetworkView.{graph_of, stands};
ghost use Rattle.metric_make.specs.CopyLaws.{by_ends};
ghost use Rattle.metric_make.specs.MetricOf.{with_copies};
ghost use Rattle.search_graph.specs.RoadCosts.{road_cost_ops};

use cost_lists::{CostList, FullCostList};
use edge_graph::Network;
use search_graph::WeightDurLen;
use std::alloc::AllocError;

/// The costs of the vertices of a network, and behind them those of their copies.
pub(crate) fn with_copies(
    network: &Network,
    mut costs: CostList<WeightDurLen>,
) -> Result<CostList<WeightDurLen>, AllocError>
    requires { length costs ≡ 2 * length network.now.segments }
    ensures { IfOk result (λ all. all ≡ with_copies network.now costs) }
{
    for q in 2 * network.segments()..network.graph().vertices() {
        let cost = costs.get(network.stands_for(q) as usize);
        costs.push(cost)?;
    }
    Ok(costs)
}

/// The two vertices of the network between which turn `i` is.
pub(crate) fn turn_at(network: &Network, i: u32) -> (u32, u32)
    requires { i < length network.now.turns }
    ensures is { slice_get network.now.turns i ≡ Some result }
    ensures from { result.0 < 2 * length network.now.segments }
    ensures to { result.1 < 2 * length network.now.segments }
{
    let (from, head) = network.graph().arc(i);
    let to = network.stands_for(head);
    (from, to)
}

// The number of the turn that an arc stands for.
fn turn_of(network: &Network, arc: u32) -> u32
    requires { arc < length (graph_of network.now).arcs }
    ensures is { (p q : ℕ) → slice_get (graph_of network.now).arcs arc ≡ Some (p, q) → slice_get network.now.turns result ≡ Some (stands network.now p, stands network.now q) }
    ensures within { result < length network.now.turns }
{
    let (from, to) = network.graph().arc(arc);
    match network.turn(network.stands_for(from), network.stands_for(to)) {
        Some(turn) => turn,
        None => unreachable!(),
    }
}

/// The costs of the turns of a network, and behind them those of the arcs out of copies.
pub(crate) fn with_arcs_out_of_copies(
    network: &Network,
    mut costs: FullCostList<WeightDurLen>,
) -> Result<FullCostList<WeightDurLen>, AllocError>
    requires many { length costs ≡ length network.now.turns }
    requires unit { All (λ a. road_cost_ops.units a 1) costs }
    ensures value { IfOk result (λ all. (cost : ℕ × ℕ → WeightDurLen) → costs ≡ map cost network.now.turns → all ≡ by_ends network.now cost (graph_of network.now).arcs) }
    ensures unit { IfOk result (λ all. All (λ a. road_cost_ops.units a 1) all) }
{
    for i in network.turns()..network.graph().arcs() {
        let turn_cost = costs.get(turn_of(network, i) as usize);
        costs.push(turn_cost)?;
    }
    Ok(costs)
}
