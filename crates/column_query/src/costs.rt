//! What cheapest walks to many targets cost.

ghost use Rattle.std.specs.Prelude.{◌≡◌, ℕ, ◌<◌, List, length, map, Some, IfOk, OnOk};
ghost use Rattle.std.specs.List.{slice_get, Contains};
ghost use Rattle.search_graph.specs.declared.ends.Start.{Start};
ghost use Rattle.search_graph.specs.Walks.{IsLeastWalk};
ghost use Rattle.search_graph.specs.Weighted.{AreSmall};
ghost use Rattle.step_search.specs.ArcSpace.{arc_space};
ghost use Rattle.step_search.specs.Paths.{IsLeastPath};
ghost use Rattle.step_search.specs.UnderWay.{IsUnderWay};
ghost use Rattle.cell_frame.specs.Cliqued.{AreExact};
ghost use Rattle.overlay_query.specs.Answers.{IsLeastCost};
ghost use Rattle.column_query.specs.declared.columns.TargetPoint.{TargetPoint};
ghost use Rattle.column_query.specs.Columns.{AreColumns};
ghost use Rattle.column_query.specs.Rows.{IsReady, row_space};

use crate::columns::TargetPoint;
use crate::forward::Forward;
use crate::paths::path_cost;
use cell_frame::{Over, Parts, Terminals};
use plain_search::SearchFault;
use search_graph::{Cost, Start, Target};
use std::alloc::{AllocError, Global};
use step_search::Search;

// The vertices of the starts.
fn vertices_of<C: Cost>(alloc: Global, starts: &[Start<C>]) -> Result<Vec<u32>, AllocError>
    ensures { IfOk result (λ vertices. vertices.items ≡ map (λ s. s.vertex) starts.now) }
{
    starts.iter().map(|s| s.vertex).collect(alloc)
}

// What a cheapest walk to the target costs: what a cheapest path to its vertex does, with the target's cost in place of the
// vertex's.
fn cost_with<C: Cost>(
    over: &Over<C, Terminals>,
    starts: &[Start<C>],
    target: Target<C>,
    path: C,
) -> C
    requires ready { IsReady C.ops over.now.frame.now over.now.weights.now over.now.cliques.now over.now.parts.now.vertices.now starts.now }
    requires below { target.vertex < over.now.frame.now.graph.vertices }
    requires unit { C.ops.units target.cost 1 }
    requires path { (walk : List ℕ) × IsLeastPath C.ops (arc_space C.ops over.now.frame.now.graph over.now.weights.now) starts.now target.vertex walk path }
    ensures { (walk : List ℕ) × IsLeastWalk C.ops over.now.frame.now.graph over.now.weights.now starts.now target walk result }
{
    let _ = starts;
    match over.weights.vertex(target.vertex) {
        None => path,
        Some(cost) => path.minus(cost).plus(target.cost),
    }
}

// What a cheapest walk to one target costs, of a search that has begun.
fn cost_to<C: Cost>(
    over: &Over<C, Terminals>,
    search: &mut Search<C>,
    starts: &[Start<C>],
    point: &TargetPoint<C>,
) -> Result<Option<C>, AllocError>
    requires ready { IsReady C.ops over.now.frame.now over.now.weights.now over.now.cliques.now over.now.parts.now.vertices.now starts.now }
    requires below { point.now.target.vertex < over.now.frame.now.graph.vertices }
    requires unit { C.ops.units point.now.target.cost 1 }
    requires columns { AreColumns C.ops over.now.frame.now over.now.weights.now point.now.target.vertex point.now.columns }
    requires under_way { IsUnderWay C.ops (row_space C.ops over.now.frame.now over.now.weights.now over.now.parts.now.vertices.now) starts.now search.old }
    ensures under_way { OnOk result (IsUnderWay C.ops (row_space C.ops over.now.frame.now over.now.weights.now over.now.parts.now.vertices.now) starts.now search.new) }
    ensures cost { IfOk result (IsLeastCost C.ops over.now.frame.now over.now.weights.now starts.now point.now.target) }
{
    match path_cost(over, search, starts, point.target.vertex, &point.columns)? {
        None => Ok(None),
        Some(path) => Ok(Some(cost_with(over, starts, point.target, path))),
    }
}

// For each target what a cheapest walk to it costs, over the parts.
fn costs_over<C: Cost>(
    alloc: Global,
    over: &Over<C, Terminals>,
    starts: &[Start<C>],
    targets: &[TargetPoint<C>],
    search: &mut Search<C>,
) -> Result<Vec<Option<C>>, AllocError>
    requires ready { IsReady C.ops over.now.frame.now over.now.weights.now over.now.cliques.now over.now.parts.now.vertices.now starts.now }
    requires targets { (t : TargetPoint C) → Contains targets.now t → (t.target.vertex < over.now.frame.now.graph.vertices) × C.ops.units t.target.cost 1 }
    requires columns { (t : TargetPoint C) → Contains targets.now t → AreColumns C.ops over.now.frame.now over.now.weights.now t.target.vertex t.columns }
    ensures one_each { IfOk result (λ costs. length costs.items ≡ length targets.now) }
    ensures least { IfOk result (λ costs. (k : ℕ) (t : TargetPoint C) (cost : _) → slice_get targets.now k ≡ Some t → slice_get costs.items k ≡ Some cost → IsLeastCost C.ops over.now.frame.now over.now.weights.now starts.now t.target cost) }
{
    search.restart(over, starts)?;
    let mut costs = Vec::with_capacity(alloc, targets.len())?;
    for point in targets {
        let cost = cost_to(over, search, starts, point)?;
        costs.push(cost)?;
    }
    Ok(costs)
}

/// For each target what a cheapest walk from one of the starts to it costs, in the order of the targets, or `None` exactly
/// where there is no walk. Where a walk begins and ends at one vertex, it leads round.
///
/// `search` is memory that is used again; nothing is asked of it. It answers `Memory` where memory runs out.
pub fn costs_by_columns<C: Cost>(
    alloc: Global,
    forward: &Forward<C>,
    starts: &[Start<C>],
    targets: &[TargetPoint<C>],
    search: &mut Search<C>,
) -> Result<Vec<Option<C>>, SearchFault>
    requires weights { AreSmall C.ops forward.now.frame.now.graph forward.now.weights.now }
    requires cliques { AreExact C.ops forward.now.frame.now forward.now.weights.now forward.now.cliques.now (length forward.now.frame.now.cells.levels) }
    requires starts { (s : Start C) → Contains starts.now s → (s.vertex < forward.now.frame.now.graph.vertices) × C.ops.units s.cost 1 }
    requires targets { (t : TargetPoint C) → Contains targets.now t → (t.target.vertex < forward.now.frame.now.graph.vertices) × C.ops.units t.target.cost 1 }
    requires columns { (t : TargetPoint C) → Contains targets.now t → AreColumns C.ops forward.now.frame.now forward.now.weights.now t.target.vertex t.columns }
    ensures one_each { IfOk result (λ costs. length costs.items ≡ length targets.now) }
    ensures least { IfOk result (λ costs. (k : ℕ) (t : TargetPoint C) (cost : _) → slice_get targets.now k ≡ Some t → slice_get costs.items k ≡ Some cost → IsLeastCost C.ops forward.now.frame.now forward.now.weights.now starts.now t.target cost) }
{
    let vertices = vertices_of(alloc, starts)?;
    let frame = forward.frame;
    let parts = Terminals {
        vertices: &vertices,
    };
    let over = Over {
        frame,
        weights: forward.weights,
        cliques: forward.cliques,
        parts: &parts,
    };
    parts.alone(frame);
    parts.known(frame);
    over.known();
    let costs = costs_over(alloc, &over, starts, targets, search)?;
    Ok(costs)
}
