//! The graph of a drawing, its cells and its frame.

ghost use Rattle.std.specs.Prelude.{◌≤◌, All};
ghost use Rattle.std.specs.List.Sorted.{IsStrictlyIncreasing};

use crate::drawings::Drawing;
use crate::numbers::{arcs, places};
use cell_frame::Frame;
use cell_partition::{Cells, PartitionError, cells};
use search_graph::{Graph, GraphFault};
use std::alloc::{AllocError, Global};

/// The graph of arcs, each as `tail-head`.
pub fn graph_of(alloc: Global, vertices: u32, list: &str) -> Result<Graph, GraphFault> {
    let arcs = arcs(alloc, list)?;
    if arcs.len() > 1000 {
        return Err(GraphFault::Memory);
    }
    Graph::of(alloc, vertices, arcs)
}

/// The graph of a drawing.
pub fn graph(alloc: Global, drawing: &Drawing) -> Result<Graph, GraphFault> {
    let vertices = places(alloc, drawing.vertices)?.len();
    if vertices > 1000 {
        return Err(GraphFault::Memory);
    }
    graph_of(alloc, vertices as u32, drawing.arcs)
}

/// The cells of a list of places, each as `longitude,latitude`, with at most so many in a cell of each level.
pub fn cells_of(alloc: Global, list: &str, limits: &[u32]) -> Result<Cells, PartitionError>
    requires ascending { IsStrictlyIncreasing limits.now }
    requires some { All (λ limit. 1 ≤ limit) limits.now }
{
    let places = places(alloc, list)?;
    if places.len() > 1000 {
        return Err(PartitionError::Memory(AllocError));
    }
    cells(alloc, &places, limits)
}

// The frame of a graph in these cells.
fn framed(alloc: Global, graph: &Graph, cells: Cells) -> Result<Box<Frame>, AllocError> {
    if cells.vertices() != graph.vertices() {
        return Err(AllocError);
    }
    Ok(Box::new(alloc, Frame::of(alloc, graph, cells)?)?)
}

/// The frame of a drawing, in cells of at most so many vertices. It stands in a box: a proof lets go of a box in one step, and of a
/// frame part by part, wherever a function ends.
pub fn frame(alloc: Global, drawing: &Drawing, limits: &[u32]) -> Result<Box<Frame>, AllocError>
    requires ascending { IsStrictlyIncreasing limits.now }
    requires some { All (λ limit. 1 ≤ limit) limits.now }
{
    let Ok(graph) = graph(alloc, drawing) else {
        return Err(AllocError);
    };
    match cells_of(alloc, drawing.vertices, limits) {
        Ok(cells) => framed(alloc, &graph, cells),
        Err(_) => Err(AllocError),
    }
}
