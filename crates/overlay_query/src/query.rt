//! The query.

ghost use Rattle.std.specs.Prelude.{◌≡◌, ℕ, ◌<◌, List, All, length, Some, IfOk, OnOk};
ghost use Rattle.std.specs.List.{slice_get, Contains};
ghost use Rattle.search_graph.specs.declared.ends.Start.{Start};
ghost use Rattle.search_graph.specs.declared.ends.Target.{Target};
ghost use Rattle.search_graph.specs.Weighted.{AreSmall};
ghost use Rattle.step_search.specs.Paths.{IsLeastPath};
ghost use Rattle.step_search.specs.UnderWay.{IsUnderWay};
ghost use Rattle.cell_frame.specs.Cliqued.{AreExact};
ghost use Rattle.overlay_query.specs.Answers.{IsPackedFound, terminals_of};
ghost use Rattle.overlay_query.specs.Query.{IsQuery, IsCostWith, IsAsked, query_space};
ghost use Rattle.overlay_query.specs.TerminalCells.{AreTerminalCells};

use crate::hops::pack;
use crate::packed::{Hops, PackedFound, PackedWalk};
use crate::terminals::TerminalCells;
use cell_frame::{Cliques, Frame, Over, Parts};
use plain_search::SearchFault;
use search_graph::{Cost, Start, Target, Weights};
use std::alloc::{AllocError, Global};
use step_search::Search;

// All starts and all targets.
pub(crate) fn terminals<C: Cost>(
    alloc: Global,
    starts: &[Start<C>],
    targets: &[Target<C>],
) -> Result<Vec<u32>, AllocError>
    ensures { IfOk result (λ all. all.items ≡ terminals_of starts.now targets.now) }
{
    let ends = targets.iter().map(|t| t.vertex);
    starts.iter().map(|s| s.vertex).chain(ends).collect(alloc)
}

// What a walk to the target costs: what its path does, with the target's cost in place of the vertex's.
pub(crate) fn cost_with<C: Cost>(
    over: &Over<C, TerminalCells>,
    starts: &[Start<C>],
    target: Target<C>,
    path: C,
) -> C
    requires query { IsQuery C.ops over.now.frame.now over.now.weights.now over.now.cliques.now over.now.parts.now.vertices.items starts.now }
    requires target { IsAsked C.ops over.now.frame.now over.now.parts.now.vertices.items target }
    requires path { (walk : List ℕ) × IsLeastPath C.ops (query_space C.ops over.now.frame.now over.now.weights.now over.now.parts.now.vertices.items) starts.now target.vertex walk path }
    ensures { IsCostWith C.ops over.now.frame.now.graph over.now.weights.now starts.now target path result }
{
    let _ = starts;
    match over.weights.vertex(target.vertex) {
        None => path,
        Some(cost) => path.minus(cost).plus(target.cost),
    }
}

// The cheapest walk to one target, of a search that has begun.
pub(crate) fn find<C: Cost>(
    alloc: Global,
    over: &Over<C, TerminalCells>,
    search: &mut Search<C>,
    starts: &[Start<C>],
    target: Target<C>,
) -> Result<Option<PackedFound<C>>, AllocError>
    requires query { IsQuery C.ops over.now.frame.now over.now.weights.now over.now.cliques.now over.now.parts.now.vertices.items starts.now }
    requires cells { AreTerminalCells over.now.frame.now over.now.parts.now.vertices.items over.now.parts.now.names.items }
    requires target { IsAsked C.ops over.now.frame.now over.now.parts.now.vertices.items target }
    requires under_way { IsUnderWay C.ops (query_space C.ops over.now.frame.now over.now.weights.now over.now.parts.now.vertices.items) starts.now search.old }
    ensures under_way { OnOk result (IsUnderWay C.ops (query_space C.ops over.now.frame.now over.now.weights.now over.now.parts.now.vertices.items) starts.now search.new) }
    ensures found { IfOk result (IsPackedFound C.ops over.now.frame.now over.now.weights.now over.now.parts.now.vertices.items starts.now target) }
{
    search.run(over, starts, target.vertex)?;
    match search.answer(alloc, over, starts, target.vertex)? {
        None => Ok(None),
        Some(path) => {
            let cost = cost_with(over, starts, target, path.cost);
            let hops = pack(alloc, over.frame, over.parts, &path.walk)?;
            let packed = PackedWalk {
                first: path.walk[0],
                hops: Hops::of(hops),
            };
            Ok(Some(PackedFound { cost, packed }))
        }
    }
}

// For each target the cheapest walk to it over the parts.
fn least_over<C: Cost>(
    alloc: Global,
    over: &Over<C, TerminalCells>,
    starts: &[Start<C>],
    targets: &[Target<C>],
) -> Result<Vec<Option<PackedFound<C>>>, AllocError>
    requires query { IsQuery C.ops over.now.frame.now over.now.weights.now over.now.cliques.now over.now.parts.now.vertices.items starts.now }
    requires cells { AreTerminalCells over.now.frame.now over.now.parts.now.vertices.items over.now.parts.now.names.items }
    requires targets { (t : Target C) → Contains targets.now t → IsAsked C.ops over.now.frame.now over.now.parts.now.vertices.items t }
    ensures one_each { IfOk result (λ found. length found.items ≡ length targets.now) }
    ensures least { IfOk result (λ found. (k : ℕ) (t : Target C) (answer : _) → slice_get targets.now k ≡ Some t → slice_get found.items k ≡ Some answer → IsPackedFound C.ops over.now.frame.now over.now.weights.now over.now.parts.now.vertices.items starts.now t answer) }
{
    let mut search = Search::begin(alloc, over, starts)?;
    let mut found = Vec::with_capacity(alloc, targets.len())?;
    for target in targets {
        let answer = find(alloc, over, &mut search, starts, *target)?;
        found.push(answer)?;
    }
    Ok(found)
}

/// For each target the cheapest walk from one of the starts to it, packed, in the order of the targets, or `None` exactly
/// where there is no walk. Where a walk begins and ends at one vertex, it leads round.
///
/// No hop by an arc is inside a cell that is the part of both its vertices, where all starts and targets are terminals
/// (see `Frame::part_of`).
///
/// It answers `Memory` where memory runs out.
pub fn least<C: Cost>(
    alloc: Global,
    frame: &Frame,
    weights: &Weights<C>,
    cliques: &Cliques<C>,
    starts: &[Start<C>],
    targets: &[Target<C>],
) -> Result<Vec<Option<PackedFound<C>>>, SearchFault>
    requires weights { AreSmall C.ops frame.now.graph weights.now }
    requires cliques { AreExact C.ops frame.now weights.now cliques.now (length frame.now.cells.levels) }
    requires starts { (s : Start C) → Contains starts.now s → (s.vertex < frame.now.graph.vertices) × C.ops.units s.cost 1 }
    requires targets { (t : Target C) → Contains targets.now t → (t.vertex < frame.now.graph.vertices) × C.ops.units t.cost 1 }
    ensures one_each { IfOk result (λ found. length found.items ≡ length targets.now) }
    ensures least { IfOk result (λ found. (k : ℕ) (t : Target C) (answer : _) → slice_get targets.now k ≡ Some t → slice_get found.items k ≡ Some answer → IsPackedFound C.ops frame.now weights.now (terminals_of starts.now targets.now) starts.now t answer) }
{
    let all = terminals(alloc, starts, targets)?;
    let parts = TerminalCells::of(alloc, frame, all)?;
    let over = Over {
        frame,
        weights,
        cliques,
        parts: &parts,
    };
    parts.alone(frame);
    parts.known(frame);
    over.known();
    let found = least_over(alloc, &over, starts, targets)?;
    Ok(found)
}
