//! What the vertices of a network cost those who avoid some classes of ways.

ghost use Rattle.std.specs.Prelude.{◌≡◌, ◌*◌, ◌≤◌, IfOk, None, length, if◌then◌else◌};
ghost use Rattle.std.specs.List.{list_any};
ghost use Rattle.edge_graph.specs.NetworkView.{vertices_of};
ghost use Rattle.metric_make.specs.Avoiding.{avoided_costs};
ghost use Rattle.road_base.specs.Words.{is_among};

use cost_lists::CostList;
use edge_graph::Network;
use road_base::Words;
use search_graph::{WeightDurLen, Weights};
use std::alloc::{AllocError, Global};

// Whether one of these classes is in the set.
fn is_one_among(set: &Words, classes: &Words) -> bool
    ensures { result ≡ list_any (is_among set.now) classes.now }
{
    classes
        .as_slice()
        .iter()
        .any(|class| set.has(class.as_str()))
}

// What a vertex of these classes costs those who avoid the set.
fn avoided_cost(set: &Words, classes: &Words, cost: Option<WeightDurLen>) -> Option<WeightDurLen>
    ensures { result ≡ if list_any (is_among set.now) classes.now then None else cost }
{
    if is_one_among(set, classes) {
        None
    } else {
        cost
    }
}

/// What each vertex of the network costs those who avoid the set. There is room behind them for the copies.
pub(crate) fn avoided_costs(
    alloc: Global,
    network: &Network,
    weights: &Weights<WeightDurLen>,
    set: &Words,
) -> Result<CostList<WeightDurLen>, AllocError>
    requires { 2 * length network.now.segments ≤ length weights.now.vertex }
    ensures { IfOk result (λ costs. costs ≡ avoided_costs set.now (vertices_of network.now) weights.now.vertex) }
{
    let vertices = 2 * network.segments();
    let mut costs = CostList::with_capacity(alloc, network.graph().vertices() as usize)?;
    for v in 0..vertices {
        costs.push(avoided_cost(set, network.classes(v), weights.vertex(v)))?;
    }
    Ok(costs)
}
