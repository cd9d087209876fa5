//! The rows of cells that no change touches.

ghost use Rattle.std.specs.Prelude.{◌≡◌, ◌++◌, OnOk};
ghost use Rattle.cell_frame.specs.Borders.{IsCell};
ghost use Rattle.cell_customize.specs.Levels.{IsClique};
ghost use Rattle.cell_recustomize.specs.Making.{HasExactRows};

use cell_frame::{Cell, Cliques, Frame};
use cost_lists::CostList;
use search_graph::{Cost, Weights};
use std::alloc::AllocError;

/// Puts the old rows of a cell at the end of the values, where they are exact for the weights.
pub fn keep_clique<C: Cost>(
    frame: &Frame,
    weights: &Weights<C>,
    old: &Cliques<C>,
    cell: Cell,
    values: &mut CostList<C>,
) -> Result<(), AllocError>
    requires cell { IsCell frame.now.cells cell }
    requires exact { HasExactRows C.ops frame.now weights.now old.now cell }
    ensures { OnOk result ((clique : _) × (values.new ≡ values.old ++ clique) × IsClique C.ops frame.now weights.now cell clique) }
{
    let _ = weights;
    if frame.entries(cell).is_empty() {
        return Ok(());
    }
    let clique = old.clique(frame, cell);
    values.extend_from_row(&clique)
}
