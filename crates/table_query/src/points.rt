//! Targets with what they cost from the entries of their cells, so that the rows of a table share what is found near them.

ghost use Rattle.std.specs.Prelude.{◌≡◌, ◌<◌, length, IfOk, Some};
ghost use Rattle.std.specs.List.{Contains, slice_get};
ghost use Rattle.search_graph.specs.declared.ends.Target.{Target};
ghost use Rattle.table_query.specs.Columns.{AreMade, ArePoints, IsOverlay, IsPoint};

use column_query::{TargetColumns, TargetPoint};
use column_search::Overlay;
use search_graph::{Cost, Target};
use self_scheduling::{Job, items_in_threads};
use std::alloc::{AllocError, Global};
use std::thread::Threads;
use step_search::Search;

// From so many rows on it may pay to make points.
const MANY: usize = 24;

// The point of a target. The search may be any: it is begun anew, in the memory that it has.
fn point<C: Cost>(
    alloc: Global,
    overlay: &Overlay<C>,
    target: Target<C>,
    search: &mut Search<C>,
) -> Result<TargetPoint<C>, AllocError>
    requires overlay { IsOverlay C.ops overlay.now.frame.now overlay.now.weights.now overlay.now.cliques.now overlay.now.heads.now }
    requires target { target.vertex < overlay.now.frame.now.graph.vertices }
    ensures { IfOk result (IsPoint C.ops overlay.now.frame.now overlay.now.weights.now target) }
{
    let columns = TargetColumns::made(alloc, overlay, target.vertex, search)?;
    Ok(TargetPoint { target, columns })
}

// The points of all targets.
#[derive(Drop)]
struct Points<'a, 'b, C: Cost> {
    overlay: &'a Overlay<'b, C>,
    all: &'a [Target<C>],
}

impl<'a, 'b, C: Cost + Send + Sync> Job for Points<'a, 'b, C> {
    type Memory = Search<C>;

    type Item = TargetPoint<C>;

    ghost ready = { λ s. IsOverlay C.ops s.overlay.now.frame.now s.overlay.now.weights.now s.overlay.now.cliques.now s.overlay.now.heads.now × ((t : Target C) → Contains s.all.now t → t.vertex < s.overlay.now.frame.now.graph.vertices) };

    ghost count = { λ s. length s.all.now };

    ghost is_item = { λ s k point. (t : Target C) → slice_get s.all.now k ≡ Some t → IsPoint C.ops s.overlay.now.frame.now s.overlay.now.weights.now t point };

    fn count(&self) -> usize {
        self.all.len()
    }

    fn nth(&self, turn: usize) -> usize {
        turn
    }

    fn memory(&self, alloc: Global) -> Search<C> {
        Search::new(alloc)
    }

    fn item(
        &self,
        alloc: Global,
        memory: &mut Search<C>,
        number: usize,
    ) -> Result<TargetPoint<C>, AllocError> {
        point(alloc, self.overlay, self.all[number], memory)
    }
}

// The points of all targets, side by side, those of a thread with one search.
fn points_in_threads<C: Cost + Send + Sync>(
    rt: &(impl Threads + Sync),
    alloc: Global,
    overlay: &Overlay<C>,
    all: &[Target<C>],
) -> Result<Vec<TargetPoint<C>>, AllocError>
    requires overlay { IsOverlay C.ops overlay.now.frame.now overlay.now.weights.now overlay.now.cliques.now overlay.now.heads.now }
    requires targets { (t : Target C) → Contains all.now t → t.vertex < overlay.now.frame.now.graph.vertices }
    ensures { IfOk result (λ points. ArePoints C.ops overlay.now.frame.now overlay.now.weights.now all.now points.items) }
{
    items_in_threads(rt, alloc, &Points { overlay, all })
}

// Whether it pays to make the points of the targets of so many columns: where there are many rows, and no more columns.
fn pays(rows: usize, columns: usize) -> bool {
    rows >= MANY && rows >= columns
}

/// The points of all targets of a table of so many rows and columns, or none where that wouldn't pay.
pub(crate) fn points_for<C: Cost + Send + Sync>(
    rt: &(impl Threads + Sync),
    alloc: Global,
    overlay: &Overlay<C>,
    all: &[Target<C>],
    size: (usize, usize),
) -> Result<Vec<TargetPoint<C>>, AllocError>
    requires overlay { IsOverlay C.ops overlay.now.frame.now overlay.now.weights.now overlay.now.cliques.now overlay.now.heads.now }
    requires targets { (t : Target C) → Contains all.now t → t.vertex < overlay.now.frame.now.graph.vertices }
    ensures { IfOk result (λ points. AreMade C.ops overlay.now.frame.now overlay.now.weights.now all.now points.items) }
{
    let (rows, columns) = size;
    if !pays(rows, columns) {
        return Ok(Vec::new(alloc));
    }
    points_in_threads(rt, alloc, overlay, all)
}
