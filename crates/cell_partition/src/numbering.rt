//! The cell of each vertex of one level.
ghost use Rattle.std.specs.Prelude.{◌≡◌, ℕ, ◌<◌, List, length, All, IfOk, slice_index, nat_eq, true, false};
ghost use Rattle.std.specs.List.{list_any};
ghost use Rattle.cell_partition.specs.Bounds.{joined, bounds_of};
ghost use Rattle.cell_partition.specs.Partition.{AreNumbered};

use std::alloc::{AllocError, Global};

/// The cell of each vertex, by the vertices cell by cell.
pub fn numbers_of(alloc: Global, order: &[u32], bounds: &[u32]) -> Result<Vec<u32>, AllocError>
    ghost cells: { List (List ℕ) }
    requires in_place { order.now ≡ joined cells }
    requires at_bounds { bounds.now ≡ bounds_of cells }
    requires few { length cells < 4294967296 }
    requires inside { All (λ vertex. vertex < length order.now) order.now }
    ensures size { IfOk result (λ numbers. length numbers.items ≡ length order.now) }
    ensures numbers { IfOk result (λ numbers. AreNumbered cells numbers.items) }
{
    let mut numbers = vec![in alloc; 0; order.len()]?;
    number_cells(&mut numbers, order, bounds);
    Ok(numbers)
}

// Writes the number of each cell at its members, the last cell first.
fn number_cells(numbers: &mut [u32], order: &[u32], bounds: &[u32])
    ghost cells: { List (List ℕ) }
    requires in_place { order.now ≡ joined cells }
    requires at_bounds { bounds.now ≡ bounds_of cells }
    requires few { length cells < 4294967296 }
    requires inside { All (λ vertex. vertex < length numbers.old) order.now }
    ensures { AreNumbered cells numbers.new }
{
    let mut cell = bounds.len() - 1;
    while cell > 0 {
        cell -= 1;
        let start = bounds[cell] as usize;
        let end = bounds[cell + 1] as usize;
        number_members(numbers, &order[start..end], cell as u32);
    }
}

// Writes the cell's number at each of its members.
fn number_members(numbers: &mut [u32], members: &[u32], cell: u32)
    requires { All (λ vertex. vertex < length numbers.old) members.now }
    ensures members { (vertex : ℕ) → list_any (nat_eq vertex) members.now ≡ true → slice_index numbers.new vertex ≡ cell }
    ensures others { (vertex : ℕ) → list_any (nat_eq vertex) members.now ≡ false → slice_index numbers.new vertex ≡ slice_index numbers.old vertex }
{
    for vertex in members {
        numbers[*vertex as usize] = cell;
    }
}
