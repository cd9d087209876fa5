//! What the vertices and the arcs of a drawing cost.

ghost use Rattle.std.specs.Prelude.{◌≡◌, ◌≤◌, length, All, IfOk};
ghost use Rattle.std.specs.Option.{ForSome};
ghost use Rattle.search_graph.specs.RoadCosts.{road_cost_ops};
ghost use Rattle.search_graph.specs.Weighted.{AreSmall, IsWeighting};

use crate::drawings::Drawing;
use crate::numbers::{cost_of, open_cost};
use cost_lists::{CostList, FullCostList};
use search_graph::{Graph, WeightDurLen, Weights, small_weights};
use std::alloc::{AllocError, Global};

fn vertex_costs(alloc: Global, list: &str) -> Result<CostList<WeightDurLen>, AllocError>
    ensures { IfOk result (All (λ o. ForSome o (λ x. road_cost_ops.units x 1))) }
{
    let mut costs = CostList::new(alloc);
    for text in list.split(' ') {
        let cost = cost_of(text)?;
        costs.push(cost)?;
    }
    Ok(costs)
}

fn arc_costs(alloc: Global, list: &str) -> Result<FullCostList<WeightDurLen>, AllocError>
    ensures { IfOk result (All (λ a. road_cost_ops.units a 1)) }
{
    let mut costs = FullCostList::with_capacity(alloc, list.len())?;
    for text in list.split(' ') {
        let cost = open_cost(text)?;
        costs.push(cost)?;
    }
    Ok(costs)
}

// That there is a cost for each vertex and for each arc.
fn check_fitting(
    graph: &Graph,
    vertex: &CostList<WeightDurLen>,
    arc: &FullCostList<WeightDurLen>,
) -> Result<(), AllocError>
    ensures few { IfOk result (λ _. graph.now.vertices ≤ 1000) }
    ensures vertices { IfOk result (λ _. length vertex.now ≡ graph.now.vertices) }
    ensures arcs { IfOk result (λ _. length arc.now ≡ length graph.now.arcs) }
{
    let is_few = graph.vertices() <= 1000;
    if is_few && vertex.len() == graph.vertices() as usize && arc.len() == graph.arcs() as usize {
        return Ok(());
    }
    Err(AllocError)
}

/// What the vertices and the arcs of a graph cost.
pub fn weights(
    alloc: Global,
    graph: &Graph,
    drawing: &Drawing,
) -> Result<Weights<WeightDurLen>, AllocError>
    ensures small { IfOk result (AreSmall road_cost_ops graph.now) }
    ensures weighting { IfOk result (IsWeighting road_cost_ops graph.now) }
{
    let vertex = vertex_costs(alloc, drawing.vertex_costs)?;
    let arc = arc_costs(alloc, drawing.arc_costs)?;
    check_fitting(graph, &vertex, &arc)?;
    small_weights(alloc, graph, vertex, arc)
}
