//! The lists of the cells of a level, made from the vertices that stand in them.

ghost use Rattle.std.specs.Prelude.{◌≡◌, ◌<◌, ◌≤◌, ◌^◌, length, All, IfOk};
ghost use Rattle.cell_partition.specs.Partition.{level_at};
ghost use Rattle.cell_frame.specs.Listing.{AreEach, IsCellOf, IsAt, AreListed};

use crate::borders::Border;
use cell_partition::Cells;
use search_graph::index_by;
use std::alloc::{AllocError, Global};

// The cell of each vertex.
fn cells_of(
    alloc: Global,
    cells: &Cells,
    level: u32,
    vertices: &[u32],
) -> Result<Vec<u32>, AllocError>
    requires above { 1 ≤ level }
    requires below { level ≤ length cells.now.levels }
    requires inside { All (λ v. v < cells.now.vertices) vertices.now }
    ensures { IfOk result (λ numbers. AreEach (IsCellOf cells.now level) vertices.now numbers.items (length vertices.now)) }
{
    let mut numbers = Vec::with_capacity(alloc, vertices.len())?;
    for vertex in vertices {
        numbers.push(cells.cell(level, *vertex))?;
    }
    Ok(numbers)
}

// The vertices at these places.
fn taken(alloc: Global, vertices: &[u32], places: &[u32]) -> Result<Vec<u32>, AllocError>
    requires { All (λ place. place < length vertices.now) places.now }
    ensures { IfOk result (λ taken. AreEach (IsAt vertices.now) places.now taken.items (length places.now)) }
{
    let mut taken = Vec::with_capacity(alloc, places.len())?;
    for place in places {
        taken.push(vertices[*place as usize])?;
    }
    Ok(taken)
}

/// The lists of the cells of a level: in each the vertices that it holds of these, which ascend.
pub fn listed(
    alloc: Global,
    cells: &Cells,
    level: u32,
    vertices: &[u32],
) -> Result<Border, AllocError>
    requires above { 1 ≤ level }
    requires below { level ≤ length cells.now.levels }
    requires inside { All (λ v. v < cells.now.vertices) vertices.now }
    requires few { length vertices.now < 2 ^ 32 }
    ensures { IfOk result (λ border. AreListed cells.now level vertices.now border) }
{
    let numbers = cells_of(alloc, cells, level, vertices)?;
    let index = index_by(alloc, cells.count(level), numbers.as_slice())?;
    let vertex = taken(alloc, vertices, index.order.as_slice())?;
    Ok(Border::of(index.first, vertex))
}
