//! The cheapest paths of a row to one target's vertex.

ghost use Rattle.std.specs.Prelude.{◌≡◌, ℕ, ◌^◌, ◌<◌, ◌≤◌, IfSome, IfOk, OnOk};
ghost use Rattle.std.specs.List.{Contains};
ghost use Rattle.search_graph.specs.declared.ends.Start.{Start};
ghost use Rattle.step_search.specs.ArcSpace.{arc_space};
ghost use Rattle.step_search.specs.Paths.{IsLeastPathCost};
ghost use Rattle.step_search.specs.UnderWay.{IsUnderWay};
ghost use Rattle.cell_frame.specs.Free.{free_level};
ghost use Rattle.cell_frame.specs.Parts.{whole_at};
ghost use Rattle.column_search.specs.Columns.{IsColumn};
ghost use Rattle.column_query.specs.Columns.{AreColumns};
ghost use Rattle.column_query.specs.Rows.{IsReady, IsLesser, IsByEntry, row_space};

use crate::columns::TargetColumns;
use cell_frame::{Over, Parts, Terminals};
use search_graph::{Cost, Start};
use std::alloc::AllocError;
use step_search::Search;

// Of two costs the lesser, where there are any.
fn lesser<C: Cost>(a: Option<C>, b: Option<C>) -> Option<C>
    ensures { IsLesser C.ops a b result }
{
    match (a, b) {
        (Some(first), Some(second)) => { if second.cmp(&first).is_lt() { b } else { a } }
        (Some(_), None) => a,
        (None, _) => b,
    }
}

// What a cheapest path to an entry costs with what is paid on from there, where there is a way on.
fn by_entry<C: Cost>(
    over: &Over<C, Terminals>,
    search: &mut Search<C>,
    starts: &[Start<C>],
    entry: u32,
    more: Option<C>,
) -> Result<Option<C>, AllocError>
    requires ready { IsReady C.ops over.now.frame.now over.now.weights.now over.now.cliques.now over.now.parts.now.vertices.now starts.now }
    requires apart { (s : Start C) → Contains starts.now s → s.vertex ≡ entry → ⊥ }
    requires small { IfSome more (λ m. C.ops.units m (2 ^ 28)) }
    requires under_way { IsUnderWay C.ops (row_space C.ops over.now.frame.now over.now.weights.now over.now.parts.now.vertices.now) starts.now search.old }
    ensures under_way { OnOk result (IsUnderWay C.ops (row_space C.ops over.now.frame.now over.now.weights.now over.now.parts.now.vertices.now) starts.now search.new) }
    ensures sum { IfOk result (IsByEntry C.ops (row_space C.ops over.now.frame.now over.now.weights.now over.now.parts.now.vertices.now) starts.now entry more) }
{
    let Some(more) = more else {
        return Ok(None);
    };
    search.run(over, starts, entry)?;
    match search.cost(over, starts, entry) {
        None => Ok(None),
        Some(path) => Ok(Some(path.plus(more))),
    }
}

// What a cheapest path costs to a vertex whose part is a cell: by each entry of the cell, with what the column has there.
fn through<C: Cost>(
    over: &Over<C, Terminals>,
    search: &mut Search<C>,
    starts: &[Start<C>],
    target: u32,
    column: &[Option<C>],
) -> Result<Option<C>, AllocError>
    requires ready { IsReady C.ops over.now.frame.now over.now.weights.now over.now.cliques.now over.now.parts.now.vertices.now starts.now }
    requires target { target < over.now.frame.now.graph.vertices }
    requires part { 1 ≤ free_level over.now.frame.now.cells over.now.parts.now.vertices.now target }
    requires column { IsColumn C.ops over.now.frame.now over.now.weights.now (whole_at over.now.frame.now.cells (free_level over.now.frame.now.cells over.now.parts.now.vertices.now) target) target column.now }
    requires under_way { IsUnderWay C.ops (row_space C.ops over.now.frame.now over.now.weights.now over.now.parts.now.vertices.now) starts.now search.old }
    ensures under_way { OnOk result (IsUnderWay C.ops (row_space C.ops over.now.frame.now over.now.weights.now over.now.parts.now.vertices.now) starts.now search.new) }
    ensures cost { IfOk result (IsLeastPathCost C.ops (arc_space C.ops over.now.frame.now.graph over.now.weights.now) starts.now target) }
{
    let level = over.parts.level(over.frame, target);
    let cell = over.frame.cell(level, target);
    let mut best = None;
    for (i, entry) in over.frame.entries(cell).iter().enumerate() {
        let sum = by_entry(over, search, starts, *entry, column[i])?;
        best = lesser(best, sum);
    }
    Ok(best)
}

// What a cheapest path costs to a vertex with these columns.
pub(crate) fn path_cost<C: Cost>(
    over: &Over<C, Terminals>,
    search: &mut Search<C>,
    starts: &[Start<C>],
    target: u32,
    columns: &TargetColumns<C>,
) -> Result<Option<C>, AllocError>
    requires ready { IsReady C.ops over.now.frame.now over.now.weights.now over.now.cliques.now over.now.parts.now.vertices.now starts.now }
    requires target { target < over.now.frame.now.graph.vertices }
    requires columns { AreColumns C.ops over.now.frame.now over.now.weights.now target columns.now }
    requires under_way { IsUnderWay C.ops (row_space C.ops over.now.frame.now over.now.weights.now over.now.parts.now.vertices.now) starts.now search.old }
    ensures under_way { OnOk result (IsUnderWay C.ops (row_space C.ops over.now.frame.now over.now.weights.now over.now.parts.now.vertices.now) starts.now search.new) }
    ensures cost { IfOk result (IsLeastPathCost C.ops (arc_space C.ops over.now.frame.now.graph over.now.weights.now) starts.now target) }
{
    let level = over.parts.level(over.frame, target);
    if level == 0 {
        search.run(over, starts, target)?;
        return Ok(search.cost(over, starts, target));
    }
    through(over, search, starts, target, columns.at(level - 1))
}
