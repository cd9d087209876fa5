//! From the cheapest path to a target's vertex to the cheapest walk to the target.

ghost use Rattle.std.specs.Prelude.{◌≡◌, ◌<◌};
ghost use Rattle.search_graph.specs.Digraph.{IsOpen};
ghost use Rattle.search_graph.specs.Walks.{IsLeastWalk};
ghost use Rattle.search_graph.specs.Weighted.{IsWeighting};
ghost use Rattle.step_search.specs.Paths.{AreStarts, IsLeastPath};
ghost use Rattle.step_search.specs.ArcSpace.{arc_space};

use search_graph::{Cost, Graph, Start, Target, Weights};
use step_search::Reached;

/// The cost of a walk to the target: what its path costs, with the target's cost in place of the vertex's.
pub fn cost_with<C: Cost>(
    graph: &Graph,
    weights: &Weights<C>,
    starts: &[Start<C>],
    target: Target<C>,
    path: &Reached<C>,
) -> C
    requires weights { IsWeighting C.ops graph.now weights.now }
    requires starts { AreStarts C.ops (arc_space C.ops graph.now weights.now) starts.now }
    requires target { (target.vertex < graph.now.vertices) × C.ops.units target.cost 1 }
    requires path { IsLeastPath C.ops (arc_space C.ops graph.now weights.now) starts.now target.vertex path.now.walk.items path.now.cost }
    ensures { IsLeastWalk C.ops graph.now weights.now starts.now target path.now.walk.items result }
{
    let _ = graph;
    let _ = starts;
    match weights.vertex(target.vertex) {
        None => path.cost,
        Some(cost) => path.cost.minus(cost).plus(target.cost),
    }
}
