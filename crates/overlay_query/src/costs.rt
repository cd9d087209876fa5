//! The query for costs alone.

ghost use Rattle.std.specs.Prelude.{◌≡◌, ℕ, ◌<◌, length, Some, IfOk, OnOk};
ghost use Rattle.std.specs.List.{slice_get, Contains};
ghost use Rattle.search_graph.specs.declared.ends.Start.{Start};
ghost use Rattle.search_graph.specs.declared.ends.Target.{Target};
ghost use Rattle.search_graph.specs.Weighted.{AreSmall};
ghost use Rattle.step_search.specs.UnderWay.{IsUnderWay};
ghost use Rattle.cell_frame.specs.Cliqued.{AreExact};
ghost use Rattle.overlay_query.specs.Answers.{IsLeastCost};
ghost use Rattle.overlay_query.specs.Query.{IsQuery, IsAsked, query_space};
ghost use Rattle.overlay_query.specs.TerminalCells.{AreTerminalCells};

use crate::query::{cost_with, terminals};
use crate::terminals::TerminalCells;
use cell_frame::{Cliques, Frame, Over, Parts};
use plain_search::SearchFault;
use search_graph::{Cost, Start, Target, Weights};
use std::alloc::{AllocError, Global};
use step_search::Search;

// What a cheapest walk to one target costs, of a search that has begun.
fn cost_to<C: Cost>(
    over: &Over<C, TerminalCells>,
    search: &mut Search<C>,
    starts: &[Start<C>],
    target: Target<C>,
) -> Result<Option<C>, AllocError>
    requires query { IsQuery C.ops over.now.frame.now over.now.weights.now over.now.cliques.now over.now.parts.now.vertices.items starts.now }
    requires cells { AreTerminalCells over.now.frame.now over.now.parts.now.vertices.items over.now.parts.now.names.items }
    requires target { IsAsked C.ops over.now.frame.now over.now.parts.now.vertices.items target }
    requires under_way { IsUnderWay C.ops (query_space C.ops over.now.frame.now over.now.weights.now over.now.parts.now.vertices.items) starts.now search.old }
    ensures under_way { OnOk result (IsUnderWay C.ops (query_space C.ops over.now.frame.now over.now.weights.now over.now.parts.now.vertices.items) starts.now search.new) }
    ensures cost { IfOk result (IsLeastCost C.ops over.now.frame.now over.now.weights.now starts.now target) }
{
    search.run(over, starts, target.vertex)?;
    match search.cost(over, starts, target.vertex) {
        None => Ok(None),
        Some(path) => Ok(Some(cost_with(over, starts, target, path))),
    }
}

// For each target what a cheapest walk to it costs over the parts.
fn costs_over<C: Cost>(
    alloc: Global,
    over: &Over<C, TerminalCells>,
    starts: &[Start<C>],
    targets: &[Target<C>],
    search: &mut Search<C>,
) -> Result<Vec<Option<C>>, AllocError>
    requires query { IsQuery C.ops over.now.frame.now over.now.weights.now over.now.cliques.now over.now.parts.now.vertices.items starts.now }
    requires cells { AreTerminalCells over.now.frame.now over.now.parts.now.vertices.items over.now.parts.now.names.items }
    requires targets { (t : Target C) → Contains targets.now t → IsAsked C.ops over.now.frame.now over.now.parts.now.vertices.items t }
    ensures one_each { IfOk result (λ costs. length costs.items ≡ length targets.now) }
    ensures least { IfOk result (λ costs. (k : ℕ) (t : Target C) (cost : _) → slice_get targets.now k ≡ Some t → slice_get costs.items k ≡ Some cost → IsLeastCost C.ops over.now.frame.now over.now.weights.now starts.now t cost) }
{
    search.restart(over, starts)?;
    let mut costs = Vec::with_capacity(alloc, targets.len())?;
    for target in targets {
        let cost = cost_to(over, search, starts, *target)?;
        costs.push(cost)?;
    }
    Ok(costs)
}

/// For each target what a cheapest walk from one of the starts to it costs, in the order of the targets, or `None` exactly
/// where there is no walk. Where a walk begins and ends at one vertex, it leads round.
///
/// `search` is memory that is used again; nothing is asked of it. It answers `Memory` where memory runs out.
pub fn least_costs<C: Cost>(
    alloc: Global,
    frame: &Frame,
    weights: &Weights<C>,
    cliques: &Cliques<C>,
    starts: &[Start<C>],
    targets: &[Target<C>],
    search: &mut Search<C>,
) -> Result<Vec<Option<C>>, SearchFault>
    requires weights { AreSmall C.ops frame.now.graph weights.now }
    requires cliques { AreExact C.ops frame.now weights.now cliques.now (length frame.now.cells.levels) }
    requires starts { (s : Start C) → Contains starts.now s → (s.vertex < frame.now.graph.vertices) × C.ops.units s.cost 1 }
    requires targets { (t : Target C) → Contains targets.now t → (t.vertex < frame.now.graph.vertices) × C.ops.units t.cost 1 }
    ensures one_each { IfOk result (λ costs. length costs.items ≡ length targets.now) }
    ensures least { IfOk result (λ costs. (k : ℕ) (t : Target C) (cost : _) → slice_get targets.now k ≡ Some t → slice_get costs.items k ≡ Some cost → IsLeastCost C.ops frame.now weights.now starts.now t cost) }
{
    let all = terminals(alloc, starts, targets)?;
    let parts = TerminalCells::of(alloc, frame, all)?;
    let over = Over {
        frame,
        weights,
        cliques,
        parts: &parts,
    };
    parts.alone(frame);
    parts.known(frame);
    over.known();
    let costs = costs_over(alloc, &over, starts, targets, search)?;
    Ok(costs)
}
