//! The cliques of neighbouring cells of a level.

ghost use Rattle.std.specs.Prelude.{◌≡◌, ◌-◌, ◌≤◌, [], length, All, IfOk, OnOk};
ghost use Rattle.cell_partition.specs.Partition.{level_at};
ghost use Rattle.cell_frame.specs.Cliqued.{AreExact};
ghost use Rattle.search_graph.specs.Weighted.{AreSmall};
ghost use Rattle.cell_customize.specs.Levels.{AreMade, behind};

use crate::rows::clique;
use crate::scratch::Scratch;
use cell_frame::{Cell, Cliques, Frame, LevelCliques};
use cost_lists::{CostList, Narrow};
use search_graph::{Cost, Weights};
use std::alloc::{AllocError, Global};
use std::marker::Model;

/// The cliques of some cells, one behind another: that of the n-th begins at place n of `first`.
#[derive(Drop)]
pub struct Piece<C: Narrow> {
    first: Vec<usize>,
    values: CostList<C>,
}

impl<C: Narrow> Model for Piece<C> {
    ghost use Rattle.cell_frame.specs.Cliqued.{Rows};

    ghost Value = { Rows C };

    ghost view = { λ p. record { first = p.first.items; values = p.values } };
}

impl<C: Narrow> Piece<C> {
    /// The cliques of no cells, with room for those of all these pieces.
    pub fn with_room(alloc: Global, pieces: &[Piece<C>]) -> Result<Piece<C>, AllocError>
        ensures { IfOk result (λ piece. piece ≡ record { first = []; values = [] }) }
    {
        let mut cells: usize = 0;
        let mut values: usize = 0;
        for piece in pieces {
            cells = cells.saturating_add(piece.first.len());
            values = values.saturating_add(piece.values.len());
        }
        let first = Vec::with_capacity(alloc, cells)?;
        let values = CostList::with_capacity(alloc, values)?;
        Ok(Piece { first, values })
    }

    /// The cliques of cells, by where each begins and the values of all.
    pub fn of(first: Vec<usize>, values: CostList<C>) -> Piece<C>
        ensures { result ≡ record { first = first.items; values = values } }
    {
        Piece { first, values }
    }

    /// Puts those of another piece behind its own. It answers the error where memory runs out.
    pub fn append(&mut self, other: &Piece<C>) -> Result<(), AllocError>
        requires { All (λ first. first ≤ length other.now.values) other.now.first }
        ensures { OnOk result (self.new ≡ behind self.old other.now) }
    {
        let base = self.values.len();
        self.values.append(&other.values)?;
        let _end = self.values.len();
        for first in other.first.as_slice() {
            self.first.push(base + *first)?;
        }
        Ok(())
    }

    /// All cliques of a level.
    pub fn into_level(self) -> LevelCliques<C>
        ensures { result ≡ self }
    {
        LevelCliques::of(self.first, self.values)
    }
}

/// The cliques of the cells of a level from number `from` on and below `to`, by those of the levels below it.
///
/// The search may be any: it is begun anew at each entry of each cell, in the memory that it has.
pub fn cliques_of<C: Cost>(
    alloc: Global,
    frame: &Frame,
    weights: &Weights<C>,
    cliques: &Cliques<C>,
    level: u32,
    from: u32,
    to: u32,
    scratch: &mut Scratch<C>,
) -> Result<Piece<C>, AllocError>
    requires above { 1 ≤ level }
    requires below { level ≤ length frame.now.cells.levels }
    requires weights { AreSmall C.ops frame.now.graph weights.now }
    requires cliques { AreExact C.ops frame.now weights.now cliques.now (level - 1) }
    requires from { from ≤ to }
    requires to { to ≤ length (level_at frame.now.cells level) }
    ensures { IfOk result (λ piece. AreMade C.ops frame.now weights.now level from to piece) }
{
    let mut first = Vec::with_capacity(alloc, (to - from) as usize)?;
    let mut values = CostList::new(alloc);
    for number in from..to {
        first.push(values.len())?;
        let cell = Cell { level, number };
        clique(frame, weights, cliques, cell, scratch, &mut values)?;
    }
    Ok(Piece { first, values })
}
