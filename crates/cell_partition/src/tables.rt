//! The cell of each vertex in all levels, in tables.
ghost use Rattle.std.specs.Prelude.{◌≡◌, ℕ, ◌<◌, ◌≤◌, [], length, slice_index, All, IfOk};
ghost use Rattle.cell_partition.specs.Partition.{level_at, number_of, IsKept};

use crate::level::Level;
use std::alloc::{AllocError, Global};

/// The cell of each vertex in the lowest level, and for each level above it, by the cells
/// of the lowest, the cell that holds each of them.
#[derive(Drop)]
pub struct Tables {
    pub lowest: Vec<u32>,
    pub above: Vec<Vec<u32>>,
}

impl Tables {
    ghost use Rattle.cell_partition.specs.Levels.{IsLevel, partition_of, AreAbove, AreTables};

    /// The tables of no level.
    pub fn none(alloc: Global) -> Tables
        ensures { (n : ℕ) → AreTables (partition_of n []) result }
    {
        Tables {
            lowest: Vec::new(alloc),
            above: Vec::new(alloc),
        }
    }

    /// The tables of nested levels, the lowest first, by the cell of each vertex in the
    /// lowest.
    pub fn of(alloc: Global, lowest: Vec<u32>, levels: &[Level]) -> Result<Tables, AllocError>
        requires some { 1 ≤ length levels.now }
        requires levels { All IsLevel levels.now }
        requires kept { IsKept (partition_of (length lowest.items) levels.now) }
        requires lowest { (vertex : ℕ) → vertex < length lowest.items → slice_index lowest.items vertex ≡ number_of (level_at (partition_of (length lowest.items) levels.now) 1) vertex }
        ensures { IfOk result (AreTables (partition_of (length lowest.items) levels.now)) }
    {
        let above = Tables::above(alloc, &lowest, levels)?;
        Ok(Tables { lowest, above })
    }

    // For each level above the lowest, by the lowest's cells, the cell that holds each of them.
    fn above(alloc: Global, lowest: &[u32], levels: &[Level]) -> Result<Vec<Vec<u32>>, AllocError>
        requires some { 1 ≤ length levels.now }
        requires levels { All IsLevel levels.now }
        requires kept { IsKept (partition_of (length lowest.now) levels.now) }
        requires lowest { (vertex : ℕ) → vertex < length lowest.now → slice_index lowest.now vertex ≡ number_of (level_at (partition_of (length lowest.now) levels.now) 1) vertex }
        ensures { IfOk result (λ above. AreAbove (partition_of (length lowest.now) levels.now) above.items (length levels.now)) }
    {
        let count = levels[0].count();
        let mut above = Vec::new(alloc);
        for level in 1..levels.len() {
            let numbers = levels[level].numbers(alloc)?;
            above.push(table_of(alloc, count, lowest, &numbers)?)?;
        }
        Ok(above)
    }
}

// By the cells of the lowest level, the cell of a level above it that holds each, from the
// two cells of each vertex.
fn table_of(
    alloc: Global,
    count: u32,
    lowest: &[u32],
    upper: &[u32],
) -> Result<Vec<u32>, AllocError>
    requires inside { All (λ cell. cell < count) lowest.now }
    requires same_size { length upper.now ≡ length lowest.now }
    requires nested { (one other : ℕ) → one < length lowest.now → other < length lowest.now → slice_index lowest.now one ≡ slice_index lowest.now other → slice_index upper.now one ≡ slice_index upper.now other }
    ensures size { IfOk result (λ table. length table.items ≡ count) }
    ensures table { IfOk result (λ table. (vertex : ℕ) → vertex < length lowest.now → slice_index table.items (slice_index lowest.now vertex) ≡ slice_index upper.now vertex) }
{
    let mut table = vec![in alloc; 0; count as usize]?;
    for vertex in 0..lowest.len() {
        table[lowest[vertex] as usize] = upper[vertex];
    }
    Ok(table)
}
