//! The cells of one level.
ghost use Rattle.std.specs.Prelude.{◌≡◌, ℕ, ◌<◌, List, length, map, slice_index, IfOk};
ghost use Rattle.cell_partition.specs.Bounds.{joined, bounds_of, cell_at};
ghost use Rattle.cell_partition.specs.Partition.{number_of, IsPartition};

use crate::numbering::numbers_of;
use crate::spot::Spot;
use std::alloc::{AllocError, Global};

/// The cells of one level: the vertices cell by cell, and the bounds of the cells among
/// them.
pub struct Level {
    pub order: Vec<u32>,
    pub bounds: Vec<u32>,
}

impl Drop for Level {
    fn drop(self) {
        let Level {
            order: _order,
            bounds: _bounds,
        } = self;
    }
}

impl Level {
    ghost use Rattle.cell_partition.specs.Levels.{IsLevel, cells_of};

    /// The level whose cells lie one behind another at these bounds.
    pub fn of(alloc: Global, spots: &[Spot], bounds: Vec<u32>) -> Result<Level, AllocError>
        ghost cells: { List (List ℕ) }
        requires in_place { map (λ spot. spot.vertex) spots.now ≡ joined cells }
        requires at_bounds { bounds.items ≡ bounds_of cells }
        requires few { length cells < 4294967296 }
        ensures level { IfOk result IsLevel }
        ensures cells { IfOk result (λ level. cells_of level ≡ cells) }
    {
        let order = vertices(alloc, spots)?;
        Ok(Level { order, bounds })
    }

    /// How many cells there are.
    pub fn count(&self) -> u32
        requires { IsLevel self.now }
        ensures { result ≡ length (cells_of self.now) }
    {
        (self.bounds.len() - 1) as u32
    }

    /// The vertices of a cell.
    pub fn members(&self, cell: u32) -> &[u32]
        requires kept { IsLevel self.now }
        requires inside { cell < length (cells_of self.now) }
        ensures { result.now ≡ cell_at (cells_of self.now) cell }
    {
        let bounds = self.bounds.as_slice();
        let start = bounds[cell as usize] as usize;
        let end = bounds[cell as usize + 1] as usize;
        &self.order[start..end]
    }

    /// The cell of each vertex.
    pub fn numbers(&self, alloc: Global) -> Result<Vec<u32>, AllocError>
        requires kept { IsLevel self.now }
        requires parted { IsPartition (length self.now.order.items) (cells_of self.now) }
        ensures size { IfOk result (λ numbers. length numbers.items ≡ length self.now.order.items) }
        ensures numbers { IfOk result (λ numbers. (vertex : ℕ) → vertex < length self.now.order.items → slice_index numbers.items vertex ≡ number_of (cells_of self.now) vertex) }
    {
        let numbers = numbers_of(alloc, &self.order, &self.bounds)?;
        Ok(numbers)
    }
}

// The vertex of each spot.
fn vertices(alloc: Global, spots: &[Spot]) -> Result<Vec<u32>, AllocError>
    ensures { IfOk result (λ vertices. vertices.items ≡ map (λ spot. spot.vertex) spots.now) }
{
    spots.iter().map(|spot| spot.vertex).collect(alloc)
}
