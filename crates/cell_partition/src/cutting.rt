//! The cells of vertices by their midpoints.
ghost use Rattle.std.specs.Prelude.{◌≤◌, ◌<◌, length, All, IfOk};
ghost use Rattle.std.specs.List.Sorted.{IsStrictlyIncreasing};
ghost use Rattle.cell_partition.specs.Partition.{IsKept};
ghost use Rattle.cell_partition.specs.Halving.{IsHalvedBy};
ghost use Rattle.cell_partition.specs.Levels.{IsLevel, partition_of};

use crate::halving::Halving;
use crate::level::Level;
use crate::partition::Cells;
use crate::parts::Parts;
use std::alloc::{AllocError, Global};
use thiserror::Error;

/// Why no partition was made.
#[derive(Debug, Drop, Error)]
pub enum PartitionError {
    /// Memory ran out.
    #[error("out of memory")]
    Memory(#[from(alloc)] AllocError),
}

/// The cells of vertices that lie at these midpoints, longitude first, in one unit for
/// both coordinates: the sum of the two end locations of a segment serves, in
/// microdegrees, since only order and widths count.
///
/// The cells of the highest level hold at most as many vertices as the last limit, and
/// those of level 1 at most the first. No limit makes no level.
pub fn cells(
    alloc: Global,
    midpoints: &[(i32, i32)],
    limits: &[u32],
) -> Result<Cells, PartitionError>
    requires few { length midpoints.now < 4294967296 }
    requires ascending { IsStrictlyIncreasing limits.now }
    requires some { All (λ limit. 1 ≤ limit) limits.now }
    ensures halved { IfOk result (IsHalvedBy midpoints.now limits.now) }
    ensures kept { IfOk result IsKept }
{
    let levels = levels_of(alloc, midpoints, limits)?;
    Ok(Cells::of(alloc, midpoints.len() as u32, levels)?)
}

// The levels, cut from the highest limit down.
fn levels_of(
    alloc: Global,
    midpoints: &[(i32, i32)],
    limits: &[u32],
) -> Result<Vec<Level>, AllocError>
    requires few { length midpoints.now < 4294967296 }
    requires ascending { IsStrictlyIncreasing limits.now }
    requires some { All (λ limit. 1 ≤ limit) limits.now }
    ensures halved { IfOk result (λ levels. IsHalvedBy midpoints.now limits.now (partition_of (length midpoints.now) levels.items)) }
    ensures levels { IfOk result (λ levels. All IsLevel levels.items) }
    ensures few { IfOk result (λ levels. length levels.items < 4294967296) }
    ensures kept { IfOk result (λ levels. IsKept (partition_of (length midpoints.now) levels.items)) }
{
    let mut parts = Parts::whole(alloc, midpoints)?;
    let mut levels = Vec::new(alloc);
    let mut rest = limits.len();
    while rest > 0 {
        rest -= 1;
        let halving = Halving {
            alloc,
            limit: limits[rest],
        };
        parts = halving.halved(parts)?;
        let level = Level::of(alloc, &parts.along, Vec::from_slice(alloc, &parts.bounds)?)?;
        levels.insert(0, level)?;
    }
    Ok(levels)
}
