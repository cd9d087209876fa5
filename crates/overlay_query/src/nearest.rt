//! The query for the cheapest of several targets.

ghost use Rattle.std.specs.Prelude.{◌≡◌, ℕ, ◌<◌, map, length, IfOk, IfSome, OnOk};
ghost use Rattle.std.specs.Bool.{OnTrue, OnFalse};
ghost use Rattle.std.specs.List.{Contains};
ghost use Rattle.search_graph.specs.declared.ends.Start.{Start};
ghost use Rattle.search_graph.specs.declared.ends.Target.{Target};
ghost use Rattle.search_graph.specs.Weighted.{AreSmall};
ghost use Rattle.step_search.specs.UnderWay.{IsUnderWay, IsDone};
ghost use Rattle.cell_frame.specs.Cliqued.{AreExact};
ghost use Rattle.overlay_query.specs.Answers.{IsPackedCheapest, terminals_of};
ghost use Rattle.overlay_query.specs.Best.{IsPriced, IsBehind, IsBetter, IsLesser, IsBest};
ghost use Rattle.overlay_query.specs.Query.{IsQuery, IsAsked, query_space};
ghost use Rattle.overlay_query.specs.TerminalCells.{AreTerminalCells};

use crate::packed::PackedFound;
use crate::query::{cost_with, find, terminals};
use crate::terminals::TerminalCells;
use cell_frame::{Cliques, Frame, Over, Parts};
use plain_search::SearchFault;
use search_graph::{Cost, Start, Target, Weights};
use std::alloc::{AllocError, Global};
use step_search::Search;

/// A target with what a cheapest walk to it costs.
#[derive(Clone, Copy, Drop)]
pub struct Priced<C> {
    pub target: Target<C>,
    pub cost: C,
}

// Goes on until the target is settled, or no walk to it can cost less than the best so far; tells whether it is settled or
// can't be reached.
fn reaches<C: Cost>(
    over: &Over<C, TerminalCells>,
    search: &mut Search<C>,
    starts: &[Start<C>],
    best: Option<Priced<C>>,
    target: Target<C>,
) -> Result<bool, AllocError>
    requires query { IsQuery C.ops over.now.frame.now over.now.weights.now over.now.cliques.now over.now.parts.now.vertices.items starts.now }
    requires cells { AreTerminalCells over.now.frame.now over.now.parts.now.vertices.items over.now.parts.now.names.items }
    requires target { IsAsked C.ops over.now.frame.now over.now.parts.now.vertices.items target }
    requires best { IfSome best (IsPriced C.ops over.now.frame.now over.now.weights.now over.now.parts.now.vertices.items starts.now) }
    requires under_way { IsUnderWay C.ops (query_space C.ops over.now.frame.now over.now.weights.now over.now.parts.now.vertices.items) starts.now search.old }
    ensures under_way { OnOk result (IsUnderWay C.ops (query_space C.ops over.now.frame.now over.now.weights.now over.now.parts.now.vertices.items) starts.now search.new) }
    ensures done { IfOk result (λ done. OnTrue done (IsDone C.ops (query_space C.ops over.now.frame.now over.now.weights.now over.now.parts.now.vertices.items) starts.now search.new target.vertex)) }
    ensures behind { IfOk result (λ done. OnFalse done (IsBehind C.ops over.now.frame.now over.now.weights.now starts.now best target)) }
{
    let Some(best) = best else {
        search.run(over, starts, target.vertex)?;
        return Ok(true);
    };
    match over.weights.vertex(target.vertex) {
        None => Ok(false),
        Some(cost) => {
            let limit = best.cost.plus(cost);
            let done = search.run_below(over, starts, target.vertex, limit)?;
            Ok(done)
        }
    }
}

// Of the best so far and a target the cheaper, the best so far where neither is.
fn cheaper<C: Cost>(
    over: &Over<C, TerminalCells>,
    search: &mut Search<C>,
    starts: &[Start<C>],
    best: Option<Priced<C>>,
    target: Target<C>,
) -> Result<Option<Priced<C>>, AllocError>
    requires query { IsQuery C.ops over.now.frame.now over.now.weights.now over.now.cliques.now over.now.parts.now.vertices.items starts.now }
    requires cells { AreTerminalCells over.now.frame.now over.now.parts.now.vertices.items over.now.parts.now.names.items }
    requires target { IsAsked C.ops over.now.frame.now over.now.parts.now.vertices.items target }
    requires best { IfSome best (IsPriced C.ops over.now.frame.now over.now.weights.now over.now.parts.now.vertices.items starts.now) }
    requires under_way { IsUnderWay C.ops (query_space C.ops over.now.frame.now over.now.weights.now over.now.parts.now.vertices.items) starts.now search.old }
    ensures under_way { OnOk result (IsUnderWay C.ops (query_space C.ops over.now.frame.now over.now.weights.now over.now.parts.now.vertices.items) starts.now search.new) }
    ensures better { IfOk result (IsBetter C.ops over.now.frame.now over.now.weights.now over.now.parts.now.vertices.items starts.now best target) }
{
    let reached = reaches(over, search, starts, best, target)?;
    if !reached {
        return Ok(best);
    }
    match search.cost(over, starts, target.vertex) {
        None => Ok(best),
        Some(path) => {
            let cost = cost_with(over, starts, target, path);
            Ok(Some(lesser(best, Priced { target, cost })))
        }
    }
}

// Of the best so far and another the one that costs less, the best so far where neither does.
fn lesser<C: Cost>(best: Option<Priced<C>>, other: Priced<C>) -> Priced<C>
    ensures { IsLesser C.ops best other result }
{
    match best {
        None => other,
        Some(best) => {
            if other.cost.cmp(&best.cost).is_lt() {
                return other;
            }
            best
        }
    }
}

// The target that the search comes to first, with what a cheapest walk to it costs, or none where it comes to none.
fn first_reached<C: Cost>(
    alloc: Global,
    over: &Over<C, TerminalCells>,
    search: &mut Search<C>,
    starts: &[Start<C>],
    targets: &[Target<C>],
) -> Result<Option<Priced<C>>, AllocError>
    requires query { IsQuery C.ops over.now.frame.now over.now.weights.now over.now.cliques.now over.now.parts.now.vertices.items starts.now }
    requires cells { AreTerminalCells over.now.frame.now over.now.parts.now.vertices.items over.now.parts.now.names.items }
    requires targets { (t : Target C) → Contains targets.now t → IsAsked C.ops over.now.frame.now over.now.parts.now.vertices.items t }
    requires under_way { IsUnderWay C.ops (query_space C.ops over.now.frame.now over.now.weights.now over.now.parts.now.vertices.items) starts.now search.old }
    ensures under_way { OnOk result (IsUnderWay C.ops (query_space C.ops over.now.frame.now over.now.weights.now over.now.parts.now.vertices.items) starts.now search.new) }
    ensures best { IfOk result (IsBest C.ops over.now.frame.now over.now.weights.now over.now.parts.now.vertices.items starts.now targets.now 0) }
{
    let vertices = vertices(alloc, targets)?;
    match search.run_first(over, starts, vertices.as_slice())? {
        None => Ok(None),
        Some(first) => {
            let best = cheaper(over, search, starts, None, targets[first])?;
            Ok(best)
        }
    }
}

// The vertex of each target.
fn vertices<C: Cost>(alloc: Global, targets: &[Target<C>]) -> Result<Vec<u32>, AllocError>
    ensures { IfOk result (λ vertices. vertices.items ≡ map (λ t. t.vertex) targets.now) }
{
    targets.iter().map(|t| t.vertex).collect(alloc)
}

// The cheapest walk to one of the targets over the parts.
fn cheapest_over<C: Cost>(
    alloc: Global,
    over: &Over<C, TerminalCells>,
    starts: &[Start<C>],
    targets: &[Target<C>],
    search: &mut Search<C>,
) -> Result<Option<PackedFound<C>>, AllocError>
    requires query { IsQuery C.ops over.now.frame.now over.now.weights.now over.now.cliques.now over.now.parts.now.vertices.items starts.now }
    requires cells { AreTerminalCells over.now.frame.now over.now.parts.now.vertices.items over.now.parts.now.names.items }
    requires targets { (t : Target C) → Contains targets.now t → IsAsked C.ops over.now.frame.now over.now.parts.now.vertices.items t }
    ensures { IfOk result (IsPackedCheapest C.ops over.now.frame.now over.now.weights.now over.now.parts.now.vertices.items starts.now targets.now) }
{
    search.restart(over, starts)?;
    let mut best = first_reached(alloc, over, search, starts, targets)?;
    for target in targets {
        best = cheaper(over, search, starts, best, *target)?;
    }
    match best {
        None => Ok(None),
        Some(best) => {
            let found = find(alloc, over, search, starts, best.target)?;
            Ok(found)
        }
    }
}

/// Of the cheapest walks from one of the starts to each of the targets one that costs least, packed, or `None` exactly where
/// there is no walk to any. Where a walk begins and ends at one vertex, it leads round.
///
/// No hop by an arc is inside a cell that is the part of both its vertices, where all starts and targets are terminals
/// (see `Frame::part_of`). The search ends where no target that is left can cost less.
///
/// `search` is memory that is used again; nothing is asked of it. It answers `Memory` where memory runs out.
pub fn cheapest<C: Cost>(
    alloc: Global,
    frame: &Frame,
    weights: &Weights<C>,
    cliques: &Cliques<C>,
    starts: &[Start<C>],
    targets: &[Target<C>],
    search: &mut Search<C>,
) -> Result<Option<PackedFound<C>>, SearchFault>
    requires weights { AreSmall C.ops frame.now.graph weights.now }
    requires cliques { AreExact C.ops frame.now weights.now cliques.now (length frame.now.cells.levels) }
    requires starts { (s : Start C) → Contains starts.now s → (s.vertex < frame.now.graph.vertices) × C.ops.units s.cost 1 }
    requires targets { (t : Target C) → Contains targets.now t → (t.vertex < frame.now.graph.vertices) × C.ops.units t.cost 1 }
    ensures { IfOk result (IsPackedCheapest C.ops frame.now weights.now (terminals_of starts.now targets.now) starts.now targets.now) }
{
    let all = terminals(alloc, starts, targets)?;
    let parts = TerminalCells::of(alloc, frame, all)?;
    let over = Over {
        frame,
        weights,
        cliques,
        parts: &parts,
    };
    parts.alone(frame);
    parts.known(frame);
    over.known();
    let found = cheapest_over(alloc, &over, starts, targets, search)?;
    Ok(found)
}
