//! The arcs of a graph as the steps of a search.

ghost use Rattle.std.specs.Prelude.{◌≡◌, ℕ, ◌<◌, IfSome, Some};
ghost use Rattle.std.specs.Bool.{OnTrue, OnFalse};
ghost use Rattle.std.specs.List.{Contains};
ghost use Rattle.search_graph.specs.Weighted.{IsWeighting};
ghost use Rattle.step_search.specs.ArcSpace.{arc_space};

use cost_lists::CostRow;
use search_graph::{ArcRow, Cost, Graph, Weights};
use step_search::{Hop, Steps};

/// A graph and its weights. An arc is a step to its head where that is open, and costs the arc and the head.
#[derive(Drop)]
pub struct Along<'a, C: Cost> {
    pub graph: &'a Graph,
    pub weights: &'a Weights<C>,
}

impl<'a, C: Cost> Steps<C> for Along<'a, C> {
    ghost space = { λ s. arc_space C.ops s.graph.now s.weights.now };

    ghost ready = { λ s. IsWeighting C.ops s.graph.now s.weights.now };

    fn may_begin(&self, v: u32) -> bool {
        self.weights.vertex(v).is_some()
    }

    #[inline(always)]
    fn arcs(&self, v: u32) -> ArcRow<'_> {
        self.graph.out(v)
    }

    #[inline(always)]
    fn by_arc(&self, v: u32, i: u32) -> Option<Hop<C>> {
        let _ = v;
        let head = self.graph.arc(i).1;
        match self.weights.vertex(head) {
            None => None,
            Some(cost) => {
                let cost = self.weights.arc(i).plus(cost);
                Some(Hop { head, cost })
            }
        }
    }

    fn heads(&self, v: u32) -> &[u32] {
        let _ = v;
        &[]
    }

    fn costs(&self, v: u32) -> CostRow<'_, C> {
        let _ = v;
        CostRow::empty()
    }

    fn row(&self, v: u32) -> (u32, u32) {
        let _ = v;
        (0, 0)
    }
}
