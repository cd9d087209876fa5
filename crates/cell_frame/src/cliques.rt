//! The least costs inside the cells.

ghost use Rattle.std.specs.Prelude.{◌≡◌, ℕ, ◌<◌, [], length, List, Option, Some, IfOk, OnOk};
ghost use Rattle.std.specs.List.{slice_get};
ghost use Rattle.cell_frame.specs.Borders.{IsCell};
ghost use Rattle.cell_frame.specs.Cliqued.{AreCrossings, AreExact, HasRow, HasClique, HasCellRow, HasCellClique, IsCrossingCost, with_level};
ghost use Rattle.search_graph.specs.Digraph.{IsArc};
ghost use Rattle.search_graph.specs.Weighted.{AreSmall};

use crate::cells::Cell;
use crate::crossings::Crossing;
use crate::frame::Frame;
use cost_lists::{CostList, CostRow, Narrow};
use search_graph::{Cost, Weights};
use std::alloc::{AllocError, Global};
use std::marker::Model;

/// The least costs from the entries to the exits of each cell of one level, none where no walk leads.
///
/// It costs eight bytes a cell and eight a value, and the size of a `C` more for each cost that isn't short enough for
/// a word (see `Narrow`).
pub struct LevelCliques<C: Narrow> {
    first: Vec<usize>,
    values: CostList<C>,
}

impl<C: Narrow> Drop for LevelCliques<C> {
    fn drop(self) {
        let LevelCliques {
            first: _first,
            values: _values,
        } = self;
    }
}

impl<C: Narrow> Model for LevelCliques<C> {
    ghost use Rattle.cell_frame.specs.Cliqued.{Rows};

    ghost Value = { Rows C };

    ghost view = { λ r. record { first = r.first.items; values = r.values } };
}

impl<C: Narrow> LevelCliques<C> {
    /// The cliques of one level: that of cell n begins at place n of `first`, an entry's row behind another's.
    pub fn of(first: Vec<usize>, values: CostList<C>) -> LevelCliques<C>
        ensures { result ≡ record { first = first.items; values = values } }
    {
        LevelCliques { first, values }
    }

    // Row `i` of a cell's clique, whose rows have this width.
    fn row(&self, number: u32, i: usize, width: usize) -> CostRow<'_, C>
        requires { (row : List (Option C)) × HasRow self.now number i width row }
        ensures { HasRow self.now number i width result }
    {
        let _count = self.values.len();
        let from = self.first[number as usize] + i * width;
        self.values.row(from, from + width)
    }

    // A cell's clique, of as many rows of this width.
    fn clique(&self, number: u32, rows: usize, width: usize) -> CostRow<'_, C>
        requires { (values : List (Option C)) × HasClique self.now number rows width values }
        ensures { HasClique self.now number rows width result }
    {
        let _count = self.values.len();
        let from = self.first[number as usize];
        self.values.row(from, from + rows * width)
    }
}

/// The least costs from the entries to the exits of each cell, level by level, and what each arc between cells costs with the
/// vertex to which it leads, in the order of the frame.
pub struct Cliques<C: Narrow> {
    levels: Vec<LevelCliques<C>>,
    crossing: CostList<C>,
}

impl<C: Narrow> Drop for Cliques<C> {
    fn drop(self) {
        let Cliques {
            levels: _levels,
            crossing: _crossing,
        } = self;
    }
}

impl<C: Narrow> Model for Cliques<C> {
    ghost use Rattle.cell_frame.specs.Cliqued.{CliqueLists};

    ghost Value = { CliqueLists C };

    ghost view = { λ c. record { rows = c.levels.items; crossing = c.crossing } };
}

// What an arc between cells costs with the vertex to which it leads, none where that is closed.
fn crossing_cost<C: Cost>(frame: &Frame, weights: &Weights<C>, crossing: Crossing) -> Option<C>
    requires weights { AreSmall C.ops frame.now.graph weights.now }
    requires arc { (u : ℕ) × IsArc frame.now.graph crossing.arc u crossing.head }
    ensures { IsCrossingCost C.ops weights.now crossing result }
{
    frame.known();
    match weights.vertex(crossing.head) {
        None => None,
        Some(cost) => Some(weights.arc(crossing.arc).plus(cost)),
    }
}

// What the arcs between cells cost with the vertices to which they lead.
fn crossing_costs<C: Cost>(
    alloc: Global,
    frame: &Frame,
    weights: &Weights<C>,
) -> Result<CostList<C>, AllocError>
    requires weights { AreSmall C.ops frame.now.graph weights.now }
    ensures { IfOk result (AreCrossings C.ops frame.now weights.now (length frame.now.crossings)) }
{
    frame.known();
    let crossings = frame.crossings();
    let mut costs = CostList::with_capacity(alloc, crossings.len())?;
    for i in 0..crossings.len() {
        costs.push(crossing_cost(frame, weights, crossings[i]))?;
    }
    Ok(costs)
}

impl<C: Cost> Cliques<C> {
    /// Those of no level, with what the arcs between cells cost under these weights. It answers the error where memory runs out.
    pub fn new(alloc: Global, frame: &Frame, weights: &Weights<C>) -> Result<Cliques<C>, AllocError>
        requires weights { AreSmall C.ops frame.now.graph weights.now }
        ensures rows { IfOk result (λ cliques. cliques.rows ≡ []) }
        ensures exact { IfOk result (λ cliques. AreExact C.ops frame.now weights.now cliques 0) }
    {
        Ok(Cliques {
            levels: Vec::new(alloc),
            crossing: crossing_costs(alloc, frame, weights)?,
        })
    }
}

impl<C: Narrow> Cliques<C> {
    /// Puts the cliques of one level more on top.
    pub fn push(&mut self, level: LevelCliques<C>) -> Result<(), AllocError>
        ensures { OnOk result (self.new ≡ with_level self.old level) }
    {
        self.levels.push(level)?;
        Ok(())
    }

    /// What walks cost inside a cell from its entry at place `i` to each of its exits, in their order; none where no
    /// walk leads.
    pub fn row(&self, frame: &Frame, cell: Cell, i: usize) -> CostRow<'_, C>
        requires cell { IsCell frame.now.cells cell }
        requires has { (row : List (Option C)) × HasCellRow frame.now self.now cell i row }
        ensures { HasCellRow frame.now self.now cell i result }
    {
        let width = frame.exits(cell).len();
        self.levels[cell.level as usize - 1].row(cell.number, i, width)
    }

    /// The rows of all entries of a cell, one behind another.
    pub fn clique(&self, frame: &Frame, cell: Cell) -> CostRow<'_, C>
        requires cell { IsCell frame.now.cells cell }
        requires has { (values : List (Option C)) × HasCellClique frame.now self.now cell values }
        ensures { HasCellClique frame.now self.now cell result }
    {
        let rows = frame.entries(cell).len();
        let width = frame.exits(cell).len();
        self.levels[cell.level as usize - 1].clique(cell.number, rows, width)
    }

    /// What an arc between cells costs with the vertex to which it leads, by its place; none where that is closed.
    #[inline(always)]
    pub fn crossing(&self, i: u32) -> Option<C>
        requires { i < length self.now.crossing }
        ensures { slice_get self.now.crossing i ≡ Some result }
    {
        self.crossing.get(i as usize)
    }
}
