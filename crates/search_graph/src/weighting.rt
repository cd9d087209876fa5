//! What the vertices and arcs of a graph cost.

ghost use Rattle.std.specs.Prelude.{◌≡◌, ◌<◌, length, Some, IfOk, OnOk};
ghost use Rattle.std.specs.List.{slice_get};
ghost use Rattle.search_graph.specs.Digraph.{Weighting};
ghost use Rattle.search_graph.specs.Weighted.{IsWeighting, AreSmall};

use crate::adjacency::Graph;
use crate::costs::Cost;
use cost_lists::{CostList, FullCostList, Narrow};
use std::alloc::{AllocError, Global};
use std::marker::Model;
use std::sync::Arc;

/// What each vertex and each arc of a graph costs. A vertex without a cost is closed.
///
/// It costs eight bytes a vertex and eight an arc, and the size of a `C` more for each cost that isn't short
/// enough for a word (see `Narrow`). Copies share one memory, and weights that differ at the vertices alone share
/// that of the arcs.
pub struct Weights<C: Narrow> {
    vertex: Arc<CostList<C>>,
    arc: Arc<FullCostList<C>>,
}

impl<C: Narrow> Drop for Weights<C> {
    fn drop(self) {
        let Weights {
            vertex: _vertex,
            arc: _arc,
        } = self;
    }
}

impl<C: Narrow> Model for Weights<C> {
    ghost use Rattle.std.specs.Arc.{arc_value};
    ghost use Rattle.search_graph.specs.Digraph.{Weighting};

    ghost Value = { Weighting C };

    ghost view = { λ w. record { vertex = arc_value w.vertex; arc = arc_value w.arc } };
}

impl<C: Cost> Weights<C> {
    /// The weights of a graph, where they are a weighting of it. It answers the error where memory runs out.
    pub fn of(
        alloc: Global,
        graph: &Graph,
        vertex: CostList<C>,
        arc: FullCostList<C>,
    ) -> Result<Weights<C>, AllocError>
        requires { IsWeighting C.ops graph.now (record { vertex = vertex; arc = arc }) }
        ensures { IfOk result (λ made. made ≡ record { vertex = vertex; arc = arc }) }
    {
        let _ = graph;
        Ok(Weights {
            vertex: Arc::new(alloc, vertex)?,
            arc: Arc::new(alloc, arc)?,
        })
    }

    /// A copy, which shares the memory of these weights. It answers the error where no more can share it.
    pub fn copy(&self) -> Result<Weights<C>, AllocError>
        ensures { IfOk result (λ copy. copy ≡ self.now) }
    {
        Ok(Weights {
            vertex: Arc::try_clone(&self.vertex)?,
            arc: Arc::try_clone(&self.arc)?,
        })
    }

    /// Other costs of the vertices beside the same costs of the arcs, whose memory is shared. It answers the error
    /// where memory runs out, or no more can share it.
    pub fn with_vertices(
        &self,
        alloc: Global,
        vertex: CostList<C>,
    ) -> Result<Weights<C>, AllocError>
        ensures { IfOk result (λ made. made ≡ record { vertex = vertex; arc = self.now.arc }) }
    {
        Ok(Weights {
            vertex: Arc::new(alloc, vertex)?,
            arc: Arc::try_clone(&self.arc)?,
        })
    }

    /// What vertex `v` costs, or `None` where it is closed.
    #[inline(always)]
    pub fn vertex(&self, v: u32) -> Option<C>
        requires { v < length self.now.vertex }
        ensures { slice_get self.now.vertex v ≡ Some result }
    {
        self.vertex.get(v as usize)
    }

    /// What arc `i` costs.
    #[inline(always)]
    pub fn arc(&self, i: u32) -> C
        requires { i < length self.now.arc }
        ensures { slice_get self.now.arc i ≡ Some result }
    {
        self.arc.get(i as usize)
    }
}

/// The weights of a graph of at most 2^27 vertices where each cost is within one unit. Such weights are
/// always a weighting. It answers the error where memory runs out.
pub fn small_weights<C: Cost>(
    alloc: Global,
    graph: &Graph,
    vertex: CostList<C>,
    arc: FullCostList<C>,
) -> Result<Weights<C>, AllocError>
    requires { AreSmall C.ops graph.now (record { vertex = vertex; arc = arc }) }
    ensures value { IfOk result (λ made. made ≡ record { vertex = vertex; arc = arc }) }
    ensures small { IfOk result (λ made. AreSmall C.ops graph.now made) }
    ensures weighting { IfOk result (λ made. IsWeighting C.ops graph.now made) }
{
    Weights::of(alloc, graph, vertex, arc)
}
