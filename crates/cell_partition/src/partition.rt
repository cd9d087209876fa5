//! The cells of all levels.
ghost use Rattle.std.specs.Prelude.{ℕ, ◌≡◌, ◌<◌, ◌≤◌, length, All, IfOk};
ghost use Rattle.cell_partition.specs.Bounds.{cell_at};
ghost use Rattle.cell_partition.specs.Partition.{Partition, level_at, number_of, IsKept};

use crate::level::Level;
use crate::tables::Tables;
use std::alloc::{AllocError, Global};
use std::marker::Model;

/// A nested partition of vertices into cells, in levels that count from 1. Vertices
/// and the cells of a level count from 0.
///
/// Each vertex stands in one cell of each level, and two vertices that share a cell
/// share one of every level above. A level costs four bytes a vertex and four a cell. The
/// tables by which a vertex finds its cells cost four bytes a vertex for all levels
/// together, and for each level above the lowest four bytes a cell of the lowest.
pub struct Cells {
    pub(crate) vertices: u32,
    pub(crate) levels: Vec<Level>,
    pub(crate) tables: Tables,
}

impl Drop for Cells {
    fn drop(self) {
        let Cells {
            vertices: _vertices,
            levels: _levels,
            tables: _tables,
        } = self;
    }
}

impl Model for Cells {
    ghost use Rattle.cell_partition.specs.Partition.{Partition};
    ghost use Rattle.cell_partition.specs.Levels.{partition_of, AreKept};

    ghost Value = { Partition };

    ghost view = { λ c. partition_of c.vertices c.levels.items };

    ghost invariant = { λ c. AreKept c.vertices c.levels.items c.tables };
}

impl Cells {
    ghost use Rattle.cell_partition.specs.Levels.{IsLevel, partition_of};

    /// The partition of these levels, the lowest first.
    pub(crate) fn of(alloc: Global, vertices: u32, levels: Vec<Level>) -> Result<Cells, AllocError>
        requires levels { All IsLevel levels.items }
        requires few { length levels.items < 4294967296 }
        requires kept { IsKept (partition_of vertices levels.items) }
        ensures { IfOk result (λ cells. cells ≡ partition_of vertices levels.items) }
    {
        if levels.is_empty() {
            return Ok(Cells {
                vertices,
                levels,
                tables: Tables::none(alloc),
            });
        }
        let tables = Tables::of(alloc, levels[0].numbers(alloc)?, &levels)?;
        Ok(Cells {
            vertices,
            levels,
            tables,
        })
    }

    /// Tells a proof what is true of each partition. It does nothing.
    pub fn known(&self)
        ensures { IsKept self.now }
    {
        let _ = &self.vertices;
    }

    /// How many vertices there are.
    pub fn vertices(&self) -> u32
        ensures { result ≡ self.now.vertices }
    {
        self.vertices
    }

    /// How many levels there are.
    pub fn levels(&self) -> u32
        ensures { result ≡ length self.now.levels }
    {
        self.levels.len() as u32
    }

    /// How many cells a level has.
    pub fn count(&self, level: u32) -> u32
        requires above { 1 ≤ level }
        requires below { level ≤ length self.now.levels }
        ensures { result ≡ length (level_at self.now level) }
    {
        self.levels[level as usize - 1].count()
    }

    /// The cell of a vertex in a level.
    pub fn cell(&self, level: u32, vertex: u32) -> u32
        requires above { 1 ≤ level }
        requires below { level ≤ length self.now.levels }
        requires inside { vertex < self.now.vertices }
        ensures number { result ≡ number_of (level_at self.now level) vertex }
        ensures kept { IsKept self.now }
    {
        self.above(level, self.tables.lowest[vertex as usize])
    }

    /// The cell of a level that holds a cell of the lowest level: that of all of its vertices.
    pub fn above(&self, level: u32, lowest: u32) -> u32
        requires above { 1 ≤ level }
        requires below { level ≤ length self.now.levels }
        requires inside { lowest < length (level_at self.now 1) }
        ensures { (v : ℕ) → v < self.now.vertices → number_of (level_at self.now 1) v ≡ lowest → result ≡ number_of (level_at self.now level) v }
    {
        if level == 1 {
            return lowest;
        }
        self.tables.above[level as usize - 2][lowest as usize]
    }

    /// The vertices of a cell of a level, in the order of the last cut.
    pub fn members(&self, level: u32, cell: u32) -> &[u32]
        requires above { 1 ≤ level }
        requires below { level ≤ length self.now.levels }
        requires inside { cell < length (level_at self.now level) }
        ensures members { result.now ≡ cell_at (level_at self.now level) cell }
        ensures kept { IsKept self.now }
    {
        self.levels[level as usize - 1].members(cell)
    }
}
