//! The cliques of neighbouring cells of a level, new ones and kept ones.

ghost use Rattle.std.specs.Prelude.{◌≡◌, ◌≤◌, ◌++◌, length, IfOk, OnOk};
ghost use Rattle.cell_partition.specs.Partition.{level_at};
ghost use Rattle.cell_frame.specs.Borders.{IsCell};
ghost use Rattle.cell_customize.specs.Levels.{AreMade, IsClique};
ghost use Rattle.cell_recustomize.specs.Making.{IsPrepared};

use crate::keeping::keep_clique;
use cell_customize::{Piece, Scratch, clique};
use cell_frame::{Cell, Cliques, Frame};
use cost_lists::CostList;
use search_graph::{Cost, Weights};
use std::alloc::{AllocError, Global};

// Puts at the end of the values the clique of a cell: a new one where the cell is marked, and else the old one.
fn clique_of<C: Cost>(
    frame: &Frame,
    weights: &Weights<C>,
    old: &Cliques<C>,
    cliques: &Cliques<C>,
    marks: &[bool],
    cell: Cell,
    scratch: &mut Scratch<C>,
    values: &mut CostList<C>,
) -> Result<(), AllocError>
    requires prepared { IsPrepared C.ops frame.now weights.now old.now cliques.now marks.now cell.level }
    requires cell { IsCell frame.now.cells cell }
    ensures { OnOk result ((clique : _) × (values.new ≡ values.old ++ clique) × IsClique C.ops frame.now weights.now cell clique) }
{
    if marks[cell.number as usize] {
        clique(frame, weights, cliques, cell, scratch, values)
    } else {
        keep_clique(frame, weights, old, cell, values)
    }
}

/// The cliques of the cells of a level from number `from` on and below `to`: new ones of the marked cells, by the new
/// cliques of the levels below, and the old ones of all others.
pub fn cliques_of<C: Cost>(
    alloc: Global,
    frame: &Frame,
    weights: &Weights<C>,
    old: &Cliques<C>,
    cliques: &Cliques<C>,
    marks: &[bool],
    level: u32,
    from: u32,
    to: u32,
    scratch: &mut Scratch<C>,
) -> Result<Piece<C>, AllocError>
    requires prepared { IsPrepared C.ops frame.now weights.now old.now cliques.now marks.now level }
    requires from { from ≤ to }
    requires to { to ≤ length (level_at frame.now.cells level) }
    ensures { IfOk result (λ piece. AreMade C.ops frame.now weights.now level from to piece) }
{
    let mut first = Vec::with_capacity(alloc, (to - from) as usize)?;
    let mut values = CostList::new(alloc);
    for number in from..to {
        first.push(values.len())?;
        let cell = Cell { level, number };
        clique_of(
            frame,
            weights,
            old,
            cliques,
            marks,
            cell,
            scratch,
            &mut values,
        )?;
    }
    Ok(Piece::of(first, values))
}
