//! The queries.

ghost use Rattle.std.specs.Prelude.{◌≡◌, ℕ, ◌<◌, length, Some, IfOk, OnOk};
ghost use Rattle.std.specs.List.{slice_get, Contains};
ghost use Rattle.search_graph.specs.declared.ends.Start.{Start};
ghost use Rattle.search_graph.specs.declared.ends.Target.{Target};
ghost use Rattle.search_graph.specs.Weighted.{IsWeighting};
ghost use Rattle.step_search.specs.Paths.{AreStarts};
ghost use Rattle.step_search.specs.UnderWay.{IsUnderWay};
ghost use Rattle.step_search.specs.ArcSpace.{arc_space};
ghost use Rattle.plain_search.specs.Answers.{IsFound};

use crate::along::Along;
use crate::finish::cost_with;
use crate::found::{Found, SearchFault};
use search_graph::{Cost, Graph, Numbers, Start, Target, Weights};
use std::alloc::{AllocError, Global};
use step_search::Search;

/// The cheapest walk to one target, of a search that has begun.
fn find<C: Cost>(
    alloc: Global,
    along: &Along<C>,
    search: &mut Search<C>,
    starts: &[Start<C>],
    target: Target<C>,
) -> Result<Option<Found<C>>, AllocError>
    requires weights { IsWeighting C.ops along.now.graph.now along.now.weights.now }
    requires starts { AreStarts C.ops (arc_space C.ops along.now.graph.now along.now.weights.now) starts.now }
    requires target { (target.vertex < along.now.graph.now.vertices) × C.ops.units target.cost 1 }
    requires under_way { IsUnderWay C.ops (arc_space C.ops along.now.graph.now along.now.weights.now) starts.now search.old }
    ensures under_way { OnOk result (IsUnderWay C.ops (arc_space C.ops along.now.graph.now along.now.weights.now) starts.now search.new) }
    ensures found { IfOk result (IsFound C.ops along.now.graph.now along.now.weights.now starts.now target) }
{
    search.run(along, starts, target.vertex)?;
    match search.answer(alloc, along, starts, target.vertex)? {
        None => Ok(None),
        Some(path) => {
            let cost = cost_with(along.graph, along.weights, starts, target, &path);
            let walk = Numbers::of(path.walk);
            Ok(Some(Found { cost, walk }))
        }
    }
}

/// For each target the cheapest walk from one of the starts to it, in the order of the targets, or `None`
/// exactly where there is no walk. Where a walk begins and ends at one vertex, it leads round.
///
/// It answers `Memory` where memory runs out.
pub fn least_from<C: Cost>(
    alloc: Global,
    graph: &Graph,
    weights: &Weights<C>,
    starts: &[Start<C>],
    targets: &[Target<C>],
) -> Result<Vec<Option<Found<C>>>, SearchFault>
    requires weights { IsWeighting C.ops graph.now weights.now }
    requires starts { (s : Start C) → Contains starts.now s → (s.vertex < graph.now.vertices) × C.ops.units s.cost 1 }
    requires targets { (t : Target C) → Contains targets.now t → (t.vertex < graph.now.vertices) × C.ops.units t.cost 1 }
    ensures one_each { IfOk result (λ found. length found.items ≡ length targets.now) }
    ensures least { IfOk result (λ found. (k : ℕ) (t : Target C) (answer : _) → slice_get targets.now k ≡ Some t → slice_get found.items k ≡ Some answer → IsFound C.ops graph.now weights.now starts.now t answer) }
{
    let along = Along { graph, weights };
    let mut search = Search::begin(alloc, &along, starts)?;
    let mut found = Vec::with_capacity(alloc, targets.len())?;
    for target in targets {
        let answer = find(alloc, &along, &mut search, starts, *target)?;
        found.push(answer)?;
    }
    Ok(found)
}
