//! Tables.

ghost use Rattle.std.specs.Prelude.{◌≡◌, ℕ, ◌<◌, List, length, IfOk, Some, flat_map};
ghost use Rattle.std.specs.List.{Contains, slice_get};
ghost use Rattle.cell_frame.specs.Cliqued.{AreExact};
ghost use Rattle.head_index.specs.ByHead.{AreByHead};
ghost use Rattle.overlay_query.specs.Answers.{IsLeastCost};
ghost use Rattle.search_graph.specs.declared.ends.Start.{Start};
ghost use Rattle.search_graph.specs.declared.ends.Target.{Target};
ghost use Rattle.search_graph.specs.Weighted.{AreSmall};
ghost use Rattle.table_query.specs.Columns.{AreReady};
ghost use Rattle.table_query.specs.Tables.{IsRow, IsTable};

use crate::columns::{all_targets, least_of};
use crate::lists::{Row, Starts, Targets};
use crate::points::points_for;
use column_query::{Forward, TargetPoint, costs_by_columns};
use column_search::Overlay;
use overlay_query::least_costs;
use plain_search::SearchFault;
use search_graph::{Cost, Start, Target};
use self_scheduling::{Job, items_in_threads};
use std::alloc::{AllocError, Global};
use std::thread::Threads;
use step_search::Search;

// What each row of a table is made by: the costs and cliques that its searches go by, and the columns. `all` are the
// targets of all columns, `points` the same with what they cost from the entries of their cells, where that was made.
#[derive(Drop)]
struct Columns<'a, 'b, C: Cost> {
    overlay: &'a Overlay<'b, C>,
    targets: &'a [Targets<C>],
    all: &'a [Target<C>],
    points: &'a [TargetPoint<C>],
}

// What cheapest walks from the starts to all targets cost. The search may be any: it is begun anew, in the memory that it
// has.
fn costs<C: Cost>(
    alloc: Global,
    columns: &Columns<C>,
    starts: &[Start<C>],
    search: &mut Search<C>,
) -> Result<Vec<Option<C>>, SearchFault>
    requires ready { AreReady C.ops columns.now.overlay.now.frame.now columns.now.overlay.now.weights.now columns.now.overlay.now.cliques.now columns.now.targets.now columns.now.all.now columns.now.points.now }
    requires starts { (s : Start C) → Contains starts.now s → (s.vertex < columns.now.overlay.now.frame.now.graph.vertices) × C.ops.units s.cost 1 }
    ensures one_each { IfOk result (λ costs. length costs.items ≡ length columns.now.all.now) }
    ensures least { IfOk result (λ costs. (k : ℕ) (t : Target C) (cost : _) → slice_get columns.now.all.now k ≡ Some t → slice_get costs.items k ≡ Some cost → IsLeastCost C.ops columns.now.overlay.now.frame.now columns.now.overlay.now.weights.now starts.now t cost) }
{
    let overlay = columns.overlay;
    if columns.points.is_empty() {
        return least_costs(
            alloc,
            overlay.frame,
            overlay.weights,
            overlay.cliques,
            starts,
            columns.all,
            search,
        );
    }
    let forward = Forward {
        frame: overlay.frame,
        weights: overlay.weights,
        cliques: overlay.cliques,
    };
    costs_by_columns(alloc, &forward, starts, columns.points, search)
}

// The row from these starts. The search may be any: it is begun anew, in the memory that it has.
fn row<C: Cost>(
    alloc: Global,
    columns: &Columns<C>,
    starts: &[Start<C>],
    search: &mut Search<C>,
) -> Result<Row<C>, SearchFault>
    requires ready { AreReady C.ops columns.now.overlay.now.frame.now columns.now.overlay.now.weights.now columns.now.overlay.now.cliques.now columns.now.targets.now columns.now.all.now columns.now.points.now }
    requires starts { (s : Start C) → Contains starts.now s → (s.vertex < columns.now.overlay.now.frame.now.graph.vertices) × C.ops.units s.cost 1 }
    ensures { IfOk result (IsRow C.ops columns.now.overlay.now.frame.now.graph columns.now.overlay.now.weights.now columns.now.targets.now starts.now) }
{
    let costs = costs(alloc, columns, starts, search)?;
    let targets = columns.targets;
    let mut values = Vec::with_capacity(alloc, targets.len())?;
    let mut from = 0;
    for list in targets {
        let to = from + list.as_slice().len();
        values.push(least_of(&costs[from..to]))?;
        from = to;
    }
    Ok(Row::of(values))
}

// The rows from all lists of starts.
#[derive(Drop)]
struct Rows<'a, 'b, 'c, C: Cost> {
    columns: &'a Columns<'b, 'c, C>,
    sources: &'a [Starts<C>],
}

impl<'a, 'b, 'c, C: Cost + Send + Sync> Job for Rows<'a, 'b, 'c, C> {
    type Memory = Search<C>;

    type Item = Row<C>;

    ghost ready = { λ s. AreReady C.ops s.columns.now.overlay.now.frame.now s.columns.now.overlay.now.weights.now s.columns.now.overlay.now.cliques.now s.columns.now.targets.now s.columns.now.all.now s.columns.now.points.now × ((list : List (Start C)) (one : Start C) → Contains s.sources.now list → Contains list one → (one.vertex < s.columns.now.overlay.now.frame.now.graph.vertices) × C.ops.units one.cost 1) };

    ghost count = { λ s. length s.sources.now };

    ghost is_item = { λ s k row. (list : List (Start C)) → slice_get s.sources.now k ≡ Some list → IsRow C.ops s.columns.now.overlay.now.frame.now.graph s.columns.now.overlay.now.weights.now s.columns.now.targets.now list row };

    fn count(&self) -> usize {
        self.sources.len()
    }

    fn nth(&self, turn: usize) -> usize {
        turn
    }

    fn memory(&self, alloc: Global) -> Search<C> {
        Search::new(alloc)
    }

    fn item(
        &self,
        alloc: Global,
        memory: &mut Search<C>,
        number: usize,
    ) -> Result<Row<C>, AllocError> {
        match row(alloc, self.columns, self.sources[number].as_slice(), memory) {
            Ok(row) => Ok(row),
            Err(SearchFault::Memory) => Err(AllocError),
        }
    }
}

// The rows, side by side, as many at once as there are processors, those of a thread with one search. A single row is made by
// the calling thread.
fn rows_in_threads<C: Cost + Send + Sync>(
    rt: &(impl Threads + Sync),
    alloc: Global,
    columns: &Columns<C>,
    sources: &[Starts<C>],
) -> Result<Vec<Row<C>>, AllocError>
    requires ready { AreReady C.ops columns.now.overlay.now.frame.now columns.now.overlay.now.weights.now columns.now.overlay.now.cliques.now columns.now.targets.now columns.now.all.now columns.now.points.now }
    requires sources { (list : List (Start C)) (s : Start C) → Contains sources.now list → Contains list s → (s.vertex < columns.now.overlay.now.frame.now.graph.vertices) × C.ops.units s.cost 1 }
    ensures { IfOk result (λ rows. IsTable C.ops columns.now.overlay.now.frame.now.graph columns.now.overlay.now.weights.now sources.now columns.now.targets.now rows.items) }
{
    items_in_threads(rt, alloc, &Rows { columns, sources })
}

/// For each list of starts a row, and in it for each list of targets the least that a walk from one of the starts
/// to one of the targets costs, or `None` exactly where there is no walk. Where a walk begins and ends at one
/// vertex, it leads round. The rows are made side by side, and stand in the order of the lists of starts.
///
/// It answers `Memory` where memory runs out.
pub fn table<C: Cost + Send + Sync>(
    rt: &(impl Threads + Sync),
    alloc: Global,
    overlay: &Overlay<C>,
    sources: &[Starts<C>],
    targets: &[Targets<C>],
) -> Result<Vec<Row<C>>, SearchFault>
    requires weights { AreSmall C.ops overlay.now.frame.now.graph overlay.now.weights.now }
    requires cliques { AreExact C.ops overlay.now.frame.now overlay.now.weights.now overlay.now.cliques.now (length overlay.now.frame.now.cells.levels) }
    requires heads { AreByHead overlay.now.frame.now.graph overlay.now.heads.now }
    requires sources { (list : List (Start C)) (s : Start C) → Contains sources.now list → Contains list s → (s.vertex < overlay.now.frame.now.graph.vertices) × C.ops.units s.cost 1 }
    requires targets { (list : List (Target C)) (t : Target C) → Contains targets.now list → Contains list t → (t.vertex < overlay.now.frame.now.graph.vertices) × C.ops.units t.cost 1 }
    ensures { IfOk result (λ rows. IsTable C.ops overlay.now.frame.now.graph overlay.now.weights.now sources.now targets.now rows.items) }
{
    let all = all_targets(alloc, targets)?;
    let size = (sources.len(), targets.len());
    let points = points_for(rt, alloc, overlay, &all, size)?;
    let columns = Columns {
        overlay,
        targets,
        all: &all,
        points: &points,
    };
    let rows = rows_in_threads(rt, alloc, &columns, sources)?;
    Ok(rows)
}
