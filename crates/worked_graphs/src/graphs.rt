//! Graphs by their arcs, indices of keys, and what vertices and arcs cost.

ghost use Rattle.std.specs.Prelude.{◌≡◌, ◌^◌, ◌<◌, length, All};
ghost use Rattle.search_graph.specs.RoadCosts.{road_cost_ops};
ghost use Rattle.search_graph.specs.Weighted.{IsWeighting};

use cost_texts::{cost_told, vertices_told};
use search_graph::{ArcRow, Cost, Graph, GraphFault, WeightDurLen, Weights, index_by};
use small_graphs::{Drawing, graph, graph_of, weights};
use std::alloc::{AllocError, Global};
use std::process::Abort;
use std::test::Fail;

const ARCS: &str = "2-0 0-1 2-3 0-2 2-0";

// The same arcs by tail.
const BY_TAIL: &str = "0-1 0-2 2-0 2-3 2-0";

// A cost of the weight of its duration.
fn cost(duration: u64, length: u64) -> WeightDurLen
    ensures { result ≡ record { weight = duration; duration = duration; length = length } }
{
    WeightDurLen {
        weight: duration,
        duration,
        length,
    }
}

// The numbers of a row, `-` where it is empty.
fn row_told(alloc: Global, row: &ArcRow<'_>) -> Result<String, AllocError> {
    if row.is_empty() {
        return String::from_str(alloc, "- ");
    }
    let mut text = String::new(alloc);
    for place in 0..row.len() {
        text.push_str(format!(in alloc; "{} ", row.get(place))?.as_str())?;
    }
    Ok(text)
}

// The numbers of the arcs out of each vertex.
fn rows_told(alloc: Global, graph: &Graph) -> Result<String, AllocError> {
    let mut text = String::new(alloc);
    for vertex in 0..graph.vertices() {
        text.push_str(row_told(alloc, &graph.out(vertex))?.as_str())?;
        text.push_str("| ")?;
    }
    Ok(text)
}

// How many vertices and arcs there are, and the arcs.
fn arcs_told(alloc: Global, graph: &Graph) -> Result<String, AllocError> {
    let mut text = format!(in alloc; "{}/{}", graph.vertices(), graph.arcs())?;
    for i in 0..graph.arcs() {
        let (tail, head) = graph.arc(i);
        text.push_str(format!(in alloc; " {tail}-{head}")?.as_str())?;
    }
    Ok(text)
}

// The arcs of a graph, and their numbers by tail.
fn graph_told(alloc: Global, graph: &Graph) -> Result<String, AllocError> {
    let mut text = arcs_told(alloc, graph)?;
    text.push_str(": ")?;
    text.push_str(rows_told(alloc, graph)?.as_str())?;
    Ok(text)
}

// The number of the bad arc among these; `-` where there is none.
fn bad_told(alloc: Global, arcs: &str) -> Result<String, AllocError> {
    match graph_of(alloc, 4, arcs) {
        Err(GraphFault::BadArc(number)) => format!(in alloc; "{number}"),
        _ => String::from_str(alloc, "-"),
    }
}

#[test]
fn a_graph_lists_the_arcs_out_of_each_vertex(rt: HostRuntime) -> Result<(), Fail> {
    let graph = graph_of(rt.alloc(), 4, ARCS)?;
    let told = graph_told(rt.alloc(), &graph)?;
    let want = "4/5 2-0 0-1 2-3 0-2 2-0: 1 3 | - | 0 2 4 | - | ";
    assert_eq!(rt; told.as_str(), want);
    let bad = bad_told(rt.alloc(), "0-1 1-4 9-0")?;
    assert_eq!(rt; bad.as_str(), "1");
    Ok(())
}

// The arcs of a copy of a graph.
fn copy_told(alloc: Global, graph: &Graph) -> Result<String, AllocError> {
    let copy = graph.copy()?;
    graph_told(alloc, &copy)
}

#[test]
fn arcs_by_tail_stand_side_by_side_in_a_copy_too(rt: HostRuntime) -> Result<(), Fail> {
    let graph = graph_of(rt.alloc(), 4, BY_TAIL)?;
    let told = copy_told(rt.alloc(), &graph)?;
    let want = "4/5 0-1 0-2 2-0 2-3 2-0: 0 1 | - | 2 3 4 | - | ";
    assert_eq!(rt; told.as_str(), want);
    Ok(())
}

// The index of these keys.
fn index_told(alloc: Global, count: u32, keys: &[u32]) -> Result<String, AllocError>
    requires few { length keys.now < 2 ^ 32 }
    requires in_range { All (λ v. v < count) keys.now }
{
    let index = index_by(alloc, count, keys)?;
    let mut text = vertices_told(alloc, index.first.as_slice())?;
    text.push_str("| ")?;
    text.push_str(vertices_told(alloc, index.order.as_slice())?.as_str())?;
    Ok(text)
}

#[test]
fn an_index_has_the_numbers_of_equal_keys_in_a_row(rt: HostRuntime) -> Result<(), AllocError> {
    let told = index_told(rt.alloc(), 3, &[2, 0, 2, 0])?;
    assert_eq!(rt; told.as_str(), "0 2 2 4 | 1 3 0 2 ");
    Ok(())
}

/// Two vertices, of which the second is closed, and an arc.
const TWO: Drawing = Drawing {
    vertices: "0,0 0,0",
    arcs: "0-1",
    vertex_costs: "7/2 -",
    arc_costs: "3/9",
};

// What each vertex costs.
fn vertex_costs_told(
    alloc: Global,
    graph: &Graph,
    weights: &Weights<WeightDurLen>,
) -> Result<String, AllocError>
    requires { IsWeighting road_cost_ops graph.now weights.now }
{
    let mut text = String::new(alloc);
    for v in 0..graph.vertices() {
        text.push_str(cost_told(alloc, weights.vertex(v))?.as_str())?;
    }
    Ok(text)
}

// What each arc costs.
fn arc_costs_told(
    alloc: Global,
    graph: &Graph,
    weights: &Weights<WeightDurLen>,
) -> Result<String, AllocError>
    requires { IsWeighting road_cost_ops graph.now weights.now }
{
    let mut text = String::new(alloc);
    for i in 0..graph.arcs() {
        text.push_str(cost_told(alloc, Some(weights.arc(i)))?.as_str())?;
    }
    Ok(text)
}

// What the vertices and the arcs of a graph cost.
fn weights_told(
    alloc: Global,
    graph: &Graph,
    weights: &Weights<WeightDurLen>,
) -> Result<String, AllocError>
    requires { IsWeighting road_cost_ops graph.now weights.now }
{
    let mut text = vertex_costs_told(alloc, graph, weights)?;
    text.push_str("| ")?;
    text.push_str(arc_costs_told(alloc, graph, weights)?.as_str())?;
    Ok(text)
}

// Costs add up, and are in order.
fn calculate(rt: &impl Abort) {
    let both = cost(7, 2).plus(cost(3, 9));
    assert_eq!(rt; both, cost(10, 11));
    assert_eq!(rt; both.minus(cost(7, 2)), cost(3, 9));
    assert!(rt; cost(7, 2) > cost(3, 9));
    assert!(rt; cost(3, 2) < cost(3, 9));
}

// What the vertices and the arcs of the two cost.
fn two_told(alloc: Global, graph: &Graph) -> Result<String, AllocError> {
    let weights = weights(alloc, graph, &TWO)?;
    weights_told(alloc, graph, &weights)
}

#[test]
fn weights_are_read_by_vertex_and_arc(rt: HostRuntime) -> Result<(), Fail> {
    let graph = graph(rt.alloc(), &TWO)?;
    let told = two_told(rt.alloc(), &graph)?;
    assert_eq!(rt; told.as_str(), "7/7/2 - | 3/3/9 ");
    calculate(&rt);
    Ok(())
}
