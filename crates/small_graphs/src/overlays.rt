//! Graphs cut into cells.

ghost use Rattle.std.specs.Prelude.{◌≤◌, length, All, IfOk};
ghost use Rattle.std.specs.List.Sorted.{IsStrictlyIncreasing};
ghost use Rattle.search_graph.specs.RoadCosts.{road_cost_ops};
ghost use Rattle.search_graph.specs.Weighted.{AreSmall, IsWeighting};
ghost use Rattle.cell_frame.specs.Cliqued.{AreExact};

use crate::drawings::Drawing;
use crate::graphs::frame;
use crate::weighing::weights;
use cell_customize::customize;
use cell_frame::{Cliques, Frame};
use search_graph::{WeightDurLen, Weights};
use std::alloc::{AllocError, Global};

/// A graph cut into cells, and what walks cost inside these. Each part stands in a box, as a frame does.
#[derive(Drop)]
pub struct Overlay {
    pub frame: Box<Frame>,
    pub weights: Box<Weights<WeightDurLen>>,
    pub cliques: Box<Cliques<WeightDurLen>>,
}

/// The graph of a drawing, in cells of at most so many vertices.
pub fn cut(alloc: Global, drawing: &Drawing, limits: &[u32]) -> Result<Overlay, AllocError>
    requires ascending { IsStrictlyIncreasing limits.now }
    requires some { All (λ limit. 1 ≤ limit) limits.now }
    ensures small { IfOk result (λ c. AreSmall road_cost_ops c.frame.value.graph c.weights.value) }
    ensures weighting { IfOk result (λ c. IsWeighting road_cost_ops c.frame.value.graph c.weights.value) }
    ensures exact { IfOk result (λ c. AreExact road_cost_ops c.frame.value c.weights.value c.cliques.value (length c.frame.value.cells.levels)) }
{
    let frame = frame(alloc, drawing, limits)?;
    let weights = Box::new(alloc, weights(alloc, frame.graph(), drawing)?)?;
    let cliques = Box::new(alloc, customize(alloc, &frame, &weights)?)?;
    Ok(Overlay {
        frame,
        weights,
        cliques,
    })
}
