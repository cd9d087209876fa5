//! The columns of a target, made.

ghost use Rattle.std.specs.Prelude.{◌<◌, length, IfOk};
ghost use Rattle.search_graph.specs.Weighted.{AreSmall};
ghost use Rattle.cell_frame.specs.Cliqued.{AreExact};
ghost use Rattle.head_index.specs.ByHead.{AreByHead};
ghost use Rattle.column_query.specs.Columns.{AreColumns};

use crate::columns::{Column, TargetColumns};
use column_search::{Overlay, column};
use search_graph::Cost;
use std::alloc::{AllocError, Global};
use step_search::Search;

impl<C: Cost> TargetColumns<C> {
    /// The columns of a vertex, each by one search backwards in its cell.
    ///
    /// `search` is memory that is used again; nothing is asked of it. It answers the error where memory runs out, and where
    /// `column_search::column` does.
    pub fn made(
        alloc: Global,
        overlay: &Overlay<C>,
        target: u32,
        search: &mut Search<C>,
    ) -> Result<TargetColumns<C>, AllocError>
        requires weights { AreSmall C.ops overlay.now.frame.now.graph overlay.now.weights.now }
        requires cliques { AreExact C.ops overlay.now.frame.now overlay.now.weights.now overlay.now.cliques.now (length overlay.now.frame.now.cells.levels) }
        requires heads { AreByHead overlay.now.frame.now.graph overlay.now.heads.now }
        requires target { target < overlay.now.frame.now.graph.vertices }
        ensures { IfOk result (AreColumns C.ops overlay.now.frame.now overlay.now.weights.now target) }
    {
        let frame = overlay.frame;
        frame.known();
        let mut levels = Vec::with_capacity(alloc, frame.levels() as usize)?;
        for below in 0..frame.levels() {
            let cell = frame.cell(below + 1, target);
            let values = column(alloc, overlay, cell, target, search)?;
            levels.push(Column::of(values))?;
        }
        Ok(TargetColumns::of(levels))
    }
}
