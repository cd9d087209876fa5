//! The column of a vertex.

ghost use Rattle.std.specs.Prelude.{◌≡◌, ◌-◌, ◌∷◌, [], length, IfOk, OnOk};
ghost use Rattle.std.specs.List.{Contains};
ghost use Rattle.search_graph.specs.Weighted.{AreSmall};
ghost use Rattle.step_search.specs.UnderWay.{IsUnderWay};
ghost use Rattle.cell_frame.specs.Borders.{IsCell, Holds, at_cell};
ghost use Rattle.cell_frame.specs.Cliqued.{AreExact};
ghost use Rattle.cell_frame.specs.Inside.{IsInsideValue};
ghost use Rattle.head_index.specs.ByHead.{AreByHead};
ghost use Rattle.column_search.specs.Backward.{IsBackward, back_space};
ghost use Rattle.column_search.specs.Columns.{IsColumn};

use crate::backward::Backward;
use crate::toward::Toward;
use cell_frame::{Cell, Cliques, Frame, Over};
use head_index::HeadIndex;
use search_graph::{Cost, Start, Weights};
use std::alloc::{AllocError, Global};
use step_search::Search;

/// What a search backwards goes by: a graph's frame, its weights, their cliques, and the arcs by their heads.
#[derive(Drop)]
pub struct Overlay<'a, C: Cost> {
    pub frame: &'a Frame,
    pub weights: &'a Weights<C>,
    pub cliques: &'a Cliques<C>,
    pub heads: &'a HeadIndex,
}

// With so many arcs the ways back out of a vertex might have no names in four bytes: 2^32, less the most entries of a cell.
const TOO_MANY: u32 = 4160749568;

// One start, at no cost.
fn one_start<C: Cost>(alloc: Global, vertex: u32) -> Result<Vec<Start<C>>, AllocError>
    ensures { IfOk result (λ starts. starts.items ≡ record { vertex = vertex; cost = C.ZERO } ∷ []) }
{
    let mut starts = Vec::new(alloc);
    starts.push(Start {
        vertex,
        cost: C::ZERO,
    })?;
    Ok(starts)
}

// What the cheapest walk inside the cell costs from one of its entries to the target, of a search that has begun there.
fn value<C: Cost>(
    backward: &Backward<C>,
    search: &mut Search<C>,
    starts: &[Start<C>],
    entry: u32,
) -> Result<Option<C>, AllocError>
    requires ready { IsBackward C.ops backward.now.overlay.now.frame.now backward.now.overlay.now.weights.now backward.now.overlay.now.cliques.now backward.now.toward.now.cell backward.now.toward.now.target backward.now.overlay.now.heads.now }
    requires starts { starts.now ≡ record { vertex = backward.now.toward.now.target; cost = C.ZERO } ∷ [] }
    requires entry { Contains (at_cell backward.now.overlay.now.frame.now.entries backward.now.toward.now.cell) entry }
    requires under_way { IsUnderWay C.ops (back_space C.ops backward.now.overlay.now.frame.now backward.now.overlay.now.weights.now backward.now.toward.now.cell backward.now.toward.now.target backward.now.overlay.now.heads.now) starts.now search.old }
    ensures under_way { OnOk result (IsUnderWay C.ops (back_space C.ops backward.now.overlay.now.frame.now backward.now.overlay.now.weights.now backward.now.toward.now.cell backward.now.toward.now.target backward.now.overlay.now.heads.now) starts.now search.new) }
    ensures value { IfOk result (IsInsideValue C.ops backward.now.overlay.now.frame.now.graph backward.now.overlay.now.weights.now (Holds backward.now.overlay.now.frame.now.cells backward.now.toward.now.cell) entry backward.now.toward.now.target) }
{
    let Some(_) = backward.overlay.weights.vertex(entry) else {
        return Ok(None);
    };
    if entry == backward.toward.target {
        return Ok(Some(C::ZERO));
    }
    search.run(backward, starts, entry)?;
    Ok(search.cost(backward, starts, entry))
}

// The same for each entry.
fn values<C: Cost>(
    alloc: Global,
    backward: &Backward<C>,
    search: &mut Search<C>,
    starts: &[Start<C>],
) -> Result<Vec<Option<C>>, AllocError>
    requires ready { IsBackward C.ops backward.now.overlay.now.frame.now backward.now.overlay.now.weights.now backward.now.overlay.now.cliques.now backward.now.toward.now.cell backward.now.toward.now.target backward.now.overlay.now.heads.now }
    requires starts { starts.now ≡ record { vertex = backward.now.toward.now.target; cost = C.ZERO } ∷ [] }
    ensures { IfOk result (λ column. IsColumn C.ops backward.now.overlay.now.frame.now backward.now.overlay.now.weights.now backward.now.toward.now.cell backward.now.toward.now.target column.items) }
{
    search.restart(backward, starts)?;
    let entries = backward.overlay.frame.entries(backward.toward.cell);
    let mut column = Vec::with_capacity(alloc, entries.len())?;
    for entry in entries {
        column.push(value(backward, search, starts, *entry)?)?;
    }
    Ok(column)
}

/// What walks inside a cell cost from each of its entries, in their order, to a vertex that it holds: the least, or none
/// where no walk leads. From a closed entry none does, and to stay at an open one costs nothing.
///
/// `search` is memory that is used again; nothing is asked of it. It answers the error where memory runs out, and for a
/// graph of 2^32 - 2^27 arcs or more, which take 32 GiB by themselves.
pub fn column<C: Cost>(
    alloc: Global,
    overlay: &Overlay<C>,
    cell: Cell,
    target: u32,
    search: &mut Search<C>,
) -> Result<Vec<Option<C>>, AllocError>
    requires weights { AreSmall C.ops overlay.now.frame.now.graph overlay.now.weights.now }
    requires cliques { AreExact C.ops overlay.now.frame.now overlay.now.weights.now overlay.now.cliques.now (cell.level - 1) }
    requires heads { AreByHead overlay.now.frame.now.graph overlay.now.heads.now }
    requires cell { IsCell overlay.now.frame.now.cells cell }
    requires target { Holds overlay.now.frame.now.cells cell target }
    ensures { IfOk result (λ column. IsColumn C.ops overlay.now.frame.now overlay.now.weights.now cell target column.items) }
{
    if overlay.frame.graph().arcs() >= TOO_MANY {
        return Err(AllocError);
    }
    let toward = Toward { cell, target };
    toward.lies(overlay.frame);
    let over = Over {
        frame: overlay.frame,
        weights: overlay.weights,
        cliques: overlay.cliques,
        parts: &toward,
    };
    over.known();
    let backward = Backward {
        overlay,
        toward: &toward,
    };
    let starts = one_start(alloc, target)?;
    values(alloc, &backward, search, starts.as_slice())
}
