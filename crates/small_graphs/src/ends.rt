//! Starts and targets as texts.

ghost use Rattle.std.specs.Prelude.{◌<◌, All, IfOk};
ghost use Rattle.search_graph.specs.RoadCosts.{road_cost_ops};

use crate::numbers::{open_cost, vertex};
use search_graph::{Start, Target, WeightDurLen};
use std::alloc::{AllocError, Global};

// The vertex and the cost of an entry `vertex:cost`.
fn end(vertices: u32, entry: &str) -> Result<(u32, WeightDurLen), AllocError>
    ensures { IfOk result (λ end. (end.0 < vertices) × road_cost_ops.units end.1 1) }
{
    let mut parts = entry.split(':');
    let vertex = vertex(parts.next())?;
    let cost = open_cost(parts.next().unwrap_or("-"))?;
    if vertex >= vertices {
        return Err(AllocError);
    }
    Ok((vertex, cost))
}

/// The starts of a list, each as `vertex:cost`.
pub fn starts(
    alloc: Global,
    vertices: u32,
    list: &str,
) -> Result<Vec<Start<WeightDurLen>>, AllocError>
    ensures { IfOk result (λ starts. All (λ s. (s.vertex < vertices) × road_cost_ops.units s.cost 1) starts.items) }
{
    let mut starts = Vec::new(alloc);
    for entry in list.split(' ') {
        let (vertex, cost) = end(vertices, entry)?;
        starts.push(Start { vertex, cost })?;
    }
    Ok(starts)
}

/// The targets of a list, each as `vertex:cost`.
pub fn targets(
    alloc: Global,
    vertices: u32,
    list: &str,
) -> Result<Vec<Target<WeightDurLen>>, AllocError>
    ensures { IfOk result (λ targets. All (λ t. (t.vertex < vertices) × road_cost_ops.units t.cost 1) targets.items) }
{
    let mut targets = Vec::new(alloc);
    for entry in list.split(' ') {
        let (vertex, cost) = end(vertices, entry)?;
        targets.push(Target { vertex, cost })?;
    }
    Ok(targets)
}
