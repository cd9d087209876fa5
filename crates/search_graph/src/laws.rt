//! Laws of walks, for the crates above and for readers.

ghost use Rattle.std.specs.Prelude.{ℕ, ◌-◌, ◌*◌, ◌∷◌, List};
ghost use Rattle.std.specs.List.{Contains};
ghost use Rattle.search_graph.specs.Digraph.{Digraph, Weighting, IsOpen};
ghost use Rattle.search_graph.specs.UnitLaws.{IsSimple};
ghost use Rattle.search_graph.specs.Walks.{IsBetween, Walk};
ghost use Rattle.search_graph.specs.Weighted.{AreSmall};
ghost use Rattle.search_graph.specs.declared.ends.Start.{Start};
ghost use Rattle.search_graph.specs.declared.ends.Target.{Target};

use crate::costs::Cost;

/// A walk on which no vertex stands twice, over small weights, is within two units for each vertex of the graph, less
/// one: from an open vertex, with no more than one unit paid there (`from_open`), and between ends of no more than one
/// unit each (`between`), whether there are cheaper ones or not. The contract is the law; there is nothing to do.
pub fn simple_walks_are_within_bounds<C: Cost>()
    ensures from_open { (g : Digraph) (w : Weighting C) (u z : ℕ) (x c d : C) (vs : List ℕ) →
        AreSmall C.ops g w → IsOpen w u x → C.ops.units c 1 →
        Walk C.ops g w u c vs z d → IsSimple (u ∷ vs) → C.ops.units d (2 * g.vertices - 1) }
    ensures between { (g : Digraph) (w : Weighting C) (starts : List (Start C)) (t : Target C) (walk : List ℕ) (d : C) →
        AreSmall C.ops g w → ((s : Start C) → Contains starts s → C.ops.units s.cost 1) → C.ops.units t.cost 1 →
        IsBetween C.ops g w starts t walk d → IsSimple walk → C.ops.units d (2 * g.vertices - 1) }
{}
