//! A graph and its cells.

ghost use Rattle.std.specs.Prelude.{◌≡◌, ℕ, ◌+◌, ◌<◌, ◌≤◌, ◌^◌, length, All, IfSome, IfNone, IfOk, Some, false, nat_eq};
ghost use Rattle.std.specs.List.{Contains, slice_get, list_any};
ghost use Rattle.cell_partition.specs.Partition.{level_at, number_of};
ghost use Rattle.cell_frame.specs.Borders.{IsFramed, IsCell, at_cell, cell_of, leaving_at, names_by};
ghost use Rattle.cell_frame.specs.Spots.{TellsEntry};
ghost use Rattle.cell_frame.specs.Free.{has_terminal, free_level, part_at};

use crate::borders::Border;
use crate::building::borders;
use crate::cells::{Cell, Part};
use crate::crossings::Crossing;
use crate::leads::{Leads, leads_of};
use crate::side::Side;
use crate::spots::{Cut, Spots, Tell, spots_of};
use cell_partition::Cells;
use search_graph::{ArcRow, Graph};
use std::alloc::{AllocError, Global};
use std::marker::Model;

/// A graph, its cells, and the entries and exits of each.
pub struct Frame {
    graph: Graph,
    cells: Cells,
    entries: Vec<Border>,
    exits: Vec<Border>,
    // what is known beforehand of each vertex
    spots: Spots,
    // what is told of the exits, for each level
    leads: Vec<Leads>,
}

impl Drop for Frame {
    fn drop(self) {
        let Frame {
            graph: _graph,
            cells: _cells,
            entries: _entries,
            exits: _exits,
            spots: _spots,
            leads: _leads,
        } = self;
    }
}

impl Model for Frame {
    ghost use Rattle.cell_frame.specs.Borders.{Framed, IsFramed};
    ghost use Rattle.cell_frame.specs.Spots.{AreSpots};
    ghost use Rattle.cell_frame.specs.Leads.{AreLevels};
    ghost use Rattle.std.specs.Prelude.{length};

    ghost Value = { Framed };

    ghost view = { λ f. record { graph = f.graph; cells = f.cells; entries = f.entries.items; exits = f.exits.items; crossings = f.spots.crossings.items; spots = f.spots.spots.items; tells = f.spots.tells.items } };

    ghost invariant = { λ f. IsFramed (record { graph = f.graph; cells = f.cells; entries = f.entries.items; exits = f.exits.items; crossings = f.spots.crossings.items; spots = f.spots.spots.items; tells = f.spots.tells.items }) × AreSpots f.graph f.cells f.entries.items f.spots f.graph.vertices × AreLevels f.cells f.entries.items f.spots f.exits.items (length f.cells.levels) f.leads.items };
}

impl Frame {
    /// The frame of a graph and its cells: a copy of the graph, and the entries and exits of each cell.
    ///
    /// It takes a pass over the arcs and one over the vertices for each level, twice, one over the vertices and their arcs, and one
    /// over the exits. It answers the error where memory runs out.
    pub fn of(alloc: Global, graph: &Graph, cells: Cells) -> Result<Frame, AllocError>
        requires { cells.vertices ≡ graph.now.vertices }
        ensures graph { IfOk result (λ f. f.graph ≡ graph.now) }
        ensures cells { IfOk result (λ f. f.cells ≡ cells) }
    {
        cells.known();
        let graph = graph.copy()?;
        let entries = borders(alloc, &graph, &cells, Side::Entries)?;
        let exits = borders(alloc, &graph, &cells, Side::Exits)?;
        let cut = Cut {
            graph: &graph,
            cells: &cells,
            entries: &entries,
        };
        let spots = spots_of(alloc, &cut)?;
        let leads = leads_of(alloc, &cut, &spots, &exits)?;
        Ok(Frame {
            graph,
            cells,
            entries,
            exits,
            spots,
            leads,
        })
    }

    /// Tells a proof what is true of each frame. It does nothing.
    pub fn known(&self)
        ensures { IsFramed self.now }
    {
        let _ = &self.graph;
    }

    /// The graph.
    pub fn graph(&self) -> &Graph
        ensures { result.now ≡ self.now.graph }
    {
        &self.graph
    }

    /// How many levels there are.
    pub fn levels(&self) -> u32
        ensures { result ≡ length self.now.cells.levels }
    {
        self.cells.levels()
    }

    /// How many cells a level has.
    pub fn count(&self, level: u32) -> u32
        requires above { 1 ≤ level }
        requires below { level ≤ length self.now.cells.levels }
        ensures { result ≡ length (level_at self.now.cells level) }
    {
        self.cells.count(level)
    }

    /// The cell of a vertex at a level.
    pub fn cell(&self, level: u32, v: u32) -> Cell
        requires above { 1 ≤ level }
        requires below { level ≤ length self.now.cells.levels }
        requires vertex { v < self.now.graph.vertices }
        ensures named { result ≡ cell_of self.now.cells level v }
        ensures cell { IsCell self.now.cells result }
    {
        self.known();
        let number = self.above(level, self.lowest(v));
        Cell { level, number }
    }

    /// The entries of a cell, ascending.
    pub fn entries(&self, cell: Cell) -> &[u32]
        requires { IsCell self.now.cells cell }
        ensures { result.now ≡ at_cell self.now.entries cell }
    {
        self.entries[cell.level as usize - 1].list(cell.number)
    }

    /// The exits of a cell, ascending.
    pub fn exits(&self, cell: Cell) -> &[u32]
        requires { IsCell self.now.cells cell }
        ensures { result.now ≡ at_cell self.now.exits cell }
    {
        self.exits[cell.level as usize - 1].list(cell.number)
    }

    /// The place of a vertex among the entries of a cell.
    pub fn entry(&self, cell: Cell, v: u32) -> Option<usize>
        requires { IsCell self.now.cells cell }
        ensures some { IfSome result (λ i. slice_get (at_cell self.now.entries cell) i ≡ Some v) }
        ensures none { IfNone result (¬ Contains (at_cell self.now.entries cell) v) }
    {
        self.known();
        match self.entries(cell).binary_search(&v) {
            Ok(i) => Some(i),
            Err(_) => None,
        }
    }

    /// The place of a vertex among the entries of its cell at a level.
    #[inline(always)]
    pub fn entry_at(&self, level: u32, v: u32) -> Option<usize>
        requires above { 1 ≤ level }
        requires below { level ≤ length self.now.cells.levels }
        requires vertex { v < self.now.graph.vertices }
        ensures some { IfSome result (λ i. slice_get (at_cell self.now.entries (cell_of self.now.cells level v)) i ≡ Some v) }
        ensures none { IfNone result (¬ Contains (at_cell self.now.entries (cell_of self.now.cells level v)) v) }
    {
        let tell = self.tell(level, v)?;
        tell.entry()
    }

    /// Where among the arcs between cells those out of the exit of a cell at a place stand that lead to other cells of the level, if
    /// the exit is no entry of the cell.
    #[inline(always)]
    pub fn lead(&self, cell: Cell, place: usize) -> Option<ArcRow<'_>>
        requires { IsCell self.now.cells cell }
        ensures { IfSome result (λ arcs. (v : ℕ) → slice_get (at_cell self.now.exits cell) place ≡ Some v → (¬ Contains (at_cell self.now.entries cell) v) × (arcs ≡ leaving_at self.now cell.level v)) }
    {
        let below = cell.level as usize - 1;
        let lead = self.leads[below].lead(&self.exits[below], cell.number, place)?;
        Some(ArcRow::range(lead.first, lead.count))
    }

    /// The arcs between cells, vertex by vertex.
    #[inline(always)]
    pub fn crossings(&self) -> &[Crossing]
        ensures { result.now ≡ self.now.crossings }
    {
        self.spots.crossings.as_slice()
    }

    /// Where among the arcs between cells those out of a vertex stand that lead to other cells of a level.
    #[inline(always)]
    pub fn leaving(&self, level: u32, v: u32) -> ArcRow<'_>
        requires above { 1 ≤ level }
        requires below { level ≤ length self.now.cells.levels }
        requires vertex { v < self.now.graph.vertices }
        ensures { result ≡ leaving_at self.now level v }
    {
        match self.tell(level, v) {
            None => ArcRow::range(0, 0),
            Some(tell) => ArcRow::range(tell.first, tell.count),
        }
    }

    // What is told of a vertex at a level.
    #[inline(always)]
    fn tell(&self, level: u32, v: u32) -> Option<Tell>
        requires above { 1 ≤ level }
        requires below { level ≤ length self.now.cells.levels }
        requires vertex { v < self.now.graph.vertices }
        ensures leaving { names_by result ≡ leaving_at self.now level v }
        ensures few { IfSome result (λ t. t.first + t.count ≤ 2 ^ 32) }
        ensures entered { IfSome result (λ t. TellsEntry self.now.cells self.now.entries v level t.place) }
        ensures none { IfNone result (¬ Contains (at_cell self.now.entries (cell_of self.now.cells level v)) v) }
    {
        self.spots.spot(v).tell(&self.spots.tells, level)
    }

    /// The number of the cell of a vertex at the lowest level.
    #[inline(always)]
    pub fn lowest(&self, v: u32) -> u32
        requires some { 1 ≤ length self.now.cells.levels }
        requires vertex { v < self.now.graph.vertices }
        ensures { result ≡ number_of (level_at self.now.cells 1) v }
    {
        self.spots.spot(v).lowest
    }

    /// The number of the cell of a level that holds all vertices of a cell of the lowest level.
    pub fn above(&self, level: u32, lowest: u32) -> u32
        requires above { 1 ≤ level }
        requires below { level ≤ length self.now.cells.levels }
        requires inside { lowest < length (level_at self.now.cells 1) }
        ensures { (v : ℕ) → v < self.now.graph.vertices → number_of (level_at self.now.cells 1) v ≡ lowest → result ≡ number_of (level_at self.now.cells level) v }
    {
        self.known();
        self.cells.above(level, lowest)
    }

    /// The highest level at which the cell of a vertex holds no terminal, or 0 where there is none.
    pub fn free_level(&self, v: u32, terminals: &[u32]) -> u32
        requires vertex { v < self.now.graph.vertices }
        requires terminals { All (λ t. t < self.now.graph.vertices) terminals.now }
        ensures level { result ≡ free_level self.now.cells terminals.now v }
        ensures high { result ≤ length self.now.cells.levels }
    {
        let mut level = self.levels();
        while level > 0 {
            if !self.has_terminal(level, v, terminals) {
                return level;
            }
            level -= 1;
        }
        0
    }

    /// The part that holds a vertex: its highest cell that holds no terminal, or else the vertex alone.
    pub fn part_of(&self, v: u32, terminals: &[u32]) -> Part
        requires vertex { v < self.now.graph.vertices }
        requires terminals { All (λ t. t < self.now.graph.vertices) terminals.now }
        ensures { result ≡ part_at self.now.cells terminals.now v }
    {
        let level = self.free_level(v, terminals);
        if level == 0 {
            return Part::Alone(v);
        }
        Part::Whole(self.cell(level, v))
    }

    // Whether the cell of a vertex at a level holds a terminal.
    fn has_terminal(&self, level: u32, v: u32, terminals: &[u32]) -> bool
        requires above { 1 ≤ level }
        requires below { level ≤ length self.now.cells.levels }
        requires vertex { v < self.now.graph.vertices }
        requires terminals { All (λ t. t < self.now.graph.vertices) terminals.now }
        ensures { result ≡ has_terminal self.now.cells terminals.now level v }
    {
        let number = self.cells.cell(level, v);
        any_in(&self.cells, level, number, terminals)
    }
}

// Whether one of the vertices is in a cell.
fn any_in(cells: &Cells, level: u32, number: u32, vertices: &[u32]) -> bool
    requires above { 1 ≤ level }
    requires below { level ≤ length cells.now.levels }
    requires inside { All (λ t. t < cells.now.vertices) vertices.now }
    ensures { result ≡ list_any (λ t. nat_eq number (number_of (level_at cells.now level) t)) vertices.now }
{
    for t in vertices {
        if number == cells.cell(level, *t) {
            return true;
        }
    }
    false
}
