//! The vertices at their midpoints, and their order along an axis.
ghost use Rattle.std.specs.Prelude.{◌≡◌, ◌<◌, length, IfOk};
ghost use Rattle.std.specs.List.Sorted.{IsPermutation, IsSortedBy};
ghost use Rattle.cell_partition.specs.Spots.{spots_of, comes_before};

use crate::spot::{Axis, Spot};
use std::alloc::{AllocError, Global};

/// The vertices at their midpoints, numbered from 0.
pub fn spots_of(alloc: Global, midpoints: &[(i32, i32)]) -> Result<Vec<Spot>, AllocError>
    requires { length midpoints.now < 4294967296 }
    ensures { IfOk result (λ spots. spots.items ≡ spots_of midpoints.now) }
{
    let mut spots = Vec::with_capacity(alloc, midpoints.len())?;
    for (vertex, midpoint) in midpoints.iter().enumerate() {
        spots.push(Spot {
            vertex: vertex as u32,
            longitude: midpoint.0,
            latitude: midpoint.1,
        })?;
    }
    Ok(spots)
}

/// The spots in order along an axis, those of one coordinate by vertex.
pub fn sorted(mut spots: Vec<Spot>, axis: Axis) -> Vec<Spot>
    ensures same { IsPermutation spots.items result.items }
    ensures in_order { IsSortedBy (comes_before axis) result.items }
{
    sort(spots.as_mut_slice(), axis);
    spots
}

// Puts the spots in order along an axis, those of one coordinate by vertex.
fn sort(spots: &mut [Spot], axis: Axis)
    ensures same { IsPermutation spots.old spots.new }
    ensures in_order { IsSortedBy (comes_before axis) spots.new }
{
    // Each sort knows its axis, so that no comparison asks for it.
    match axis {
        Axis::Longitude => spots.sort_unstable_by(|one, other| one.compare(other, Axis::Longitude)),
        Axis::Latitude => spots.sort_unstable_by(|one, other| one.compare(other, Axis::Latitude)),
    }
}
