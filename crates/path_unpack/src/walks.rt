//! Cheapest walks along arcs, by way of packed ones.

ghost use Rattle.std.specs.Prelude.{◌≡◌, ℕ, ◌<◌, List, length, Some, IfOk};
ghost use Rattle.std.specs.List.{slice_get, Contains};
ghost use Rattle.search_graph.specs.declared.ends.Start.{Start};
ghost use Rattle.search_graph.specs.declared.ends.Target.{Target};
ghost use Rattle.search_graph.specs.Weighted.{AreSmall};
ghost use Rattle.plain_search.specs.Answers.{IsFound};
ghost use Rattle.cell_frame.specs.Cliqued.{AreExact};
ghost use Rattle.overlay_query.specs.Answers.{IsPackedFound};
ghost use Rattle.path_unpack.specs.Cheapest.{IsCheapest};

use crate::unpacking::unpack;
use cell_frame::{Cliques, Frame};
use overlay_query::{PackedFound, cheapest, least};
use plain_search::{Found, SearchFault};
use search_graph::{Cost, Numbers, Start, Target, Weights};
use std::alloc::Global;
use step_search::Search;

// The answer to a target, with its walk unpacked.
fn unpacked<C: Cost>(
    alloc: Global,
    frame: &Frame,
    weights: &Weights<C>,
    cliques: &Cliques<C>,
    starts: &[Start<C>],
    target: Target<C>,
    answer: &Option<PackedFound<C>>,
    search: &mut Search<C>,
) -> Result<Option<Found<C>>, SearchFault>
    requires weights { AreSmall C.ops frame.now.graph weights.now }
    requires cliques { AreExact C.ops frame.now weights.now cliques.now (length frame.now.cells.levels) }
    requires starts { (s : Start C) → Contains starts.now s → C.ops.units s.cost 1 }
    requires answer { (terminals : List ℕ) × IsPackedFound C.ops frame.now weights.now terminals starts.now target answer.now }
    ensures { IfOk result (IsFound C.ops frame.now.graph weights.now starts.now target) }
{
    let _ = starts;
    let _ = target;
    match answer {
        None => Ok(None),
        Some(found) => {
            let walk = unpack(alloc, frame, weights, cliques, &found.packed, search)?;
            Ok(Some(Found {
                cost: found.cost,
                walk: Numbers::of(walk),
            }))
        }
    }
}

/// For each target the cheapest walk from one of the starts to it, in the order of the targets, or `None` exactly where
/// there is no walk. Where a walk begins and ends at one vertex, it leads round.
///
/// That is what `plain_search::least_from` answers for the frame's graph, by a search that leaps over the cells which
/// hold no start and no target. It answers `Memory` where memory runs out.
pub fn least_from<C: Cost>(
    alloc: Global,
    frame: &Frame,
    weights: &Weights<C>,
    cliques: &Cliques<C>,
    starts: &[Start<C>],
    targets: &[Target<C>],
) -> Result<Vec<Option<Found<C>>>, SearchFault>
    requires weights { AreSmall C.ops frame.now.graph weights.now }
    requires cliques { AreExact C.ops frame.now weights.now cliques.now (length frame.now.cells.levels) }
    requires starts { (s : Start C) → Contains starts.now s → (s.vertex < frame.now.graph.vertices) × C.ops.units s.cost 1 }
    requires targets { (t : Target C) → Contains targets.now t → (t.vertex < frame.now.graph.vertices) × C.ops.units t.cost 1 }
    ensures one_each { IfOk result (λ found. length found.items ≡ length targets.now) }
    ensures least { IfOk result (λ found. (k : ℕ) (t : Target C) (answer : _) → slice_get targets.now k ≡ Some t → slice_get found.items k ≡ Some answer → IsFound C.ops frame.now.graph weights.now starts.now t answer) }
{
    let packed = least(alloc, frame, weights, cliques, starts, targets)?;
    let mut search = Search::new(alloc);
    let mut found = Vec::with_capacity(alloc, targets.len())?;
    for i in 0..targets.len() {
        let answer = unpacked(
            alloc,
            frame,
            weights,
            cliques,
            starts,
            targets[i],
            &packed[i],
            &mut search,
        )?;
        found.push(answer)?;
    }
    Ok(found)
}

/// Of the cheapest walks from one of the starts to each of the targets one that costs least, or `None` exactly where there is
/// no walk to any. Where a walk begins and ends at one vertex, it leads round. That walk alone is unpacked.
///
/// `search` is memory that is used again, by the query and by the opening of shortcuts; nothing is asked of it. It answers
/// `Memory` where memory runs out.
pub fn cheapest_from<C: Cost>(
    alloc: Global,
    frame: &Frame,
    weights: &Weights<C>,
    cliques: &Cliques<C>,
    starts: &[Start<C>],
    targets: &[Target<C>],
    search: &mut Search<C>,
) -> Result<Option<Found<C>>, SearchFault>
    requires weights { AreSmall C.ops frame.now.graph weights.now }
    requires cliques { AreExact C.ops frame.now weights.now cliques.now (length frame.now.cells.levels) }
    requires starts { (s : Start C) → Contains starts.now s → (s.vertex < frame.now.graph.vertices) × C.ops.units s.cost 1 }
    requires targets { (t : Target C) → Contains targets.now t → (t.vertex < frame.now.graph.vertices) × C.ops.units t.cost 1 }
    ensures { IfOk result (IsCheapest C.ops frame.now.graph weights.now starts.now targets.now) }
{
    match cheapest(alloc, frame, weights, cliques, starts, targets, search)? {
        None => Ok(None),
        Some(nearest) => {
            let walk = unpack(alloc, frame, weights, cliques, &nearest.packed, search)?;
            Ok(Some(Found {
                cost: nearest.cost,
                walk: Numbers::of(walk),
            }))
        }
    }
}
