//! The index of a grid: extents of lines that lie near each other.
//!
//! All segments are put into an order in which near ones mostly stand near each other. Each 16 of them that
//! stand one behind another are a leaf, each 16 leaves a block, each 16 blocks a group, and each of these has an
//! extent. What lies beyond an extent can be passed by with all that is in it, wherever the lines are and however
//! long; the order serves the speed alone.

ghost use Rattle.std.specs.Prelude.{◌≡◌, ℕ, ◌+◌, ◌*◌, ◌<◌, ◌≤◌, ◌/◌, ◌^◌, List, IfOk, OnOk, Some, length};
ghost use Rattle.std.specs.List.{slice_get};
ghost use Rattle.snap_index.specs.Index.{Cover, HasAt, HasLine, IsIndexOf, IsOrder};
ghost use Rattle.snap_index.specs.declared.indexes.Spot.{Spot};
ghost use Rattle.snap_index.specs.declared.grids.SegmentEnds.{SegmentEnds};

use crate::extents::{Extent, extent_of, joined};
use crate::grids::SegmentEnds;
use road_base::Point;
use std::alloc::{AllocError, Global};

/// The segments in an order, and the extents of 16, of 256 and of 4096 that stand in it one behind another: 5.07 bytes
/// a segment.
pub(crate) struct Index {
    pub(crate) order: Vec<u32>,
    pub(crate) leaves: Vec<Extent>,
    pub(crate) blocks: Vec<Extent>,
    pub(crate) groups: Vec<Extent>,
}

impl Drop for Index {
    fn drop(self) {
        let Index {
            order: _order,
            leaves: _leaves,
            blocks: _blocks,
            groups: _groups,
        } = self;
    }
}

impl Index {
    // The index of these lines.
    pub(crate) fn of(alloc: Global, lines: &[SegmentEnds]) -> Result<Index, AllocError>
        requires { length lines.now < 2 ^ 30 }
        ensures { IfOk result (λ index. IsIndexOf lines.now index) }
    {
        let order = order_of(alloc, lines)?;
        let leaves = extents_of(alloc, lines, &order)?;
        let blocks = extents_over(alloc, &leaves)?;
        let groups = extents_over(alloc, &blocks)?;
        Ok(Index {
            order,
            leaves,
            blocks,
            groups,
        })
    }
}

// A segment, and where it stands in the order.
#[derive(Clone, Copy)]
struct Spot {
    key: u64,
    segment: u32,
}

// The segments in an order in which near ones mostly stand near each other.
fn order_of(alloc: Global, lines: &[SegmentEnds]) -> Result<Vec<u32>, AllocError>
    requires { length lines.now < 2 ^ 30 }
    ensures { IfOk result (λ order. IsOrder lines.now order.items) }
{
    let mut spots = spots_of(alloc, lines)?;
    spots.sort_unstable_by_key(|spot| (spot.key, spot.segment));
    let mut order = Vec::with_capacity(alloc, spots.len())?;
    for i in 0..spots.len() {
        let spot = spots[i];
        order.push(spot.segment)?;
    }
    Ok(order)
}

// The segments in the order of their numbers, with their keys.
fn spots_of(alloc: Global, lines: &[SegmentEnds]) -> Result<Vec<Spot>, AllocError>
    requires { length lines.now < 2 ^ 30 }
    ensures count { IfOk result (λ spots. length spots.items ≡ length lines.now) }
    ensures numbered { IfOk result (λ spots. (i : ℕ) (spot : Spot) → slice_get spots.items i ≡ Some spot → spot.segment ≡ i) }
{
    let mut spots = Vec::with_capacity(alloc, lines.len())?;
    for (segment, line) in lines.iter().enumerate() {
        spots.push(Spot {
            key: key_of(line.from),
            segment: segment as u32,
        })?;
    }
    Ok(spots)
}

// Where a point stands on a curve through all points that keeps near ones together (Morton's).
fn key_of(point: Point) -> u64 {
    let east = (point.lon + 180_000_000) as u32;
    let north = (point.lat + 90_000_000) as u32;
    spread(east) | spread(north) << 1
}

// The bits of a number, each with a free one above it.
fn spread(number: u32) -> u64 {
    let halves = u64::from(number);
    let quarters = (halves | halves << 16) & 0x0000_FFFF_0000_FFFF;
    let bytes = (quarters | quarters << 8) & 0x00FF_00FF_00FF_00FF;
    let fours = (bytes | bytes << 4) & 0x0F0F_0F0F_0F0F_0F0F;
    let twos = (fours | fours << 2) & 0x3333_3333_3333_3333;
    (twos | twos << 1) & 0x5555_5555_5555_5555
}

// The extents of each 16 lines that an order names one behind another.
fn extents_of(
    alloc: Global,
    lines: &[SegmentEnds],
    order: &[u32],
) -> Result<Vec<Extent>, AllocError>
    requires { (i s : ℕ) → slice_get order.now i ≡ Some s → s < length lines.now }
    ensures { IfOk result (λ extents. Cover 16 lines.now order.now extents.items) }
{
    let mut extents = Vec::new(alloc);
    for i in 0..order.len() {
        let segment = order[i];
        let line = lines[segment as usize];
        add(&mut extents, i, extent_of(line))?;
    }
    Ok(extents)
}

// The extents of each 16 of others that stand one behind another.
fn extents_over(alloc: Global, parts: &[Extent]) -> Result<Vec<Extent>, AllocError>
    ensures { IfOk result (λ extents. (k : ℕ) (line : SegmentEnds) → HasAt parts.now k line → HasAt extents.items (k / 16) line) }
{
    let mut extents = Vec::new(alloc);
    for i in 0..parts.len() {
        let part = parts[i];
        add(&mut extents, i, part)?;
    }
    Ok(extents)
}

// Adds an extent, the one of this number, to those of each 16 before it.
fn add(extents: &mut Vec<Extent>, i: usize, extent: Extent) -> Result<(), AllocError>
    requires { length extents.old.items ≡ (i + 15) / 16 }
    ensures count { OnOk result (length extents.new.items ≡ (i + 16) / 16) }
    ensures stays { OnOk result ((k : ℕ) (line : SegmentEnds) → HasAt extents.old.items k line → HasAt extents.new.items k line) }
    ensures added { OnOk result ((line : SegmentEnds) → HasLine extent line → HasAt extents.new.items (i / 16) line) }
{
    if i % 16 == 0 {
        extents.push(extent)?;
    } else {
        let last = extents[i / 16];
        extents[i / 16] = joined(last, extent);
    }
    Ok(())
}
