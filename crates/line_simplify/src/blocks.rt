//! Runs of points, each with its extent. What no point of an extent can change is passed over with all that is in it.
//!
//! Each 16 points that stand one behind another are a leaf, each 16 leaves a block, each 16 blocks a group.

ghost use Rattle.std.specs.Prelude.{◌≡◌, ℕ, ◌+◌, ◌*◌, ◌<◌, ◌≤◌, ◌/◌, ◌^◌, IfOk, IsTrue, OnOk, Some, length};
ghost use Rattle.std.specs.List.{slice_get};
ghost use Rattle.road_base.specs.declared.coordinates.Point.{Point};
ghost use Rattle.line_simplify.specs.Blocks.{AreCovered, HasAt, HasPoint, IsCovered};
ghost use Rattle.line_simplify.specs.Simplified.{offset_of};

use crate::bounds::{Chord, most_within};
use crate::extents::{Extent, extent_of, joined};
use road_base::Point;
use std::alloc::{AllocError, Global};

/// The extents of each 16, 256 and 4096 points: 1.07 bytes a point.
pub(crate) struct Blocks {
    pub(crate) leaves: Vec<Extent>,
    pub(crate) blocks: Vec<Extent>,
    pub(crate) groups: Vec<Extent>,
}

impl Drop for Blocks {
    fn drop(self) {
        let Blocks {
            leaves: _leaves,
            blocks: _blocks,
            groups: _groups,
        } = self;
    }
}

impl Blocks {
    // The extents of these points.
    pub(crate) fn of(alloc: Global, points: &[Point]) -> Result<Blocks, AllocError>
        ensures { IfOk result (λ blocks. AreCovered blocks 0 points.now) }
    {
        let leaves = extents_of(alloc, points)?;
        let blocks = extents_over(alloc, &leaves)?;
        let groups = extents_over(alloc, &blocks)?;
        Ok(Blocks {
            leaves,
            blocks,
            groups,
        })
    }
}

// The extents of each 16 points that stand one behind another.
fn extents_of(alloc: Global, points: &[Point]) -> Result<Vec<Extent>, AllocError>
    ensures { IfOk result (λ extents. (i : ℕ) (p : Point) → slice_get points.now i ≡ Some p → HasAt extents.items (i / 16) p) }
{
    let mut extents = Vec::new(alloc);
    for i in 0..points.len() {
        let point = points[i];
        add(&mut extents, i, extent_of(point))?;
    }
    Ok(extents)
}

// The extents of each 16 of others that stand one behind another.
fn extents_over(alloc: Global, parts: &[Extent]) -> Result<Vec<Extent>, AllocError>
    ensures { IfOk result (λ extents. (k : ℕ) (p : Point) → HasAt parts.now k p → HasAt extents.items (k / 16) p) }
{
    let mut extents = Vec::new(alloc);
    for i in 0..parts.len() {
        let part = parts[i];
        add(&mut extents, i, part)?;
    }
    Ok(extents)
}

// Adds an extent, the one of this number, to those of each 16 before it.
fn add(extents: &mut Vec<Extent>, i: usize, extent: Extent) -> Result<(), AllocError>
    requires { length extents.old.items ≡ (i + 15) / 16 }
    ensures count { OnOk result (length extents.new.items ≡ (i + 16) / 16) }
    ensures stays { OnOk result ((k : ℕ) (p : Point) → HasAt extents.old.items k p → HasAt extents.new.items k p) }
    ensures added { OnOk result ((p : Point) → HasPoint extent p → HasAt extents.new.items (i / 16) p) }
{
    if i % 16 == 0 {
        extents.push(extent)?;
    } else {
        let last = extents[i / 16];
        extents[i / 16] = joined(last, extent);
    }
    Ok(())
}

// How many points can be passed over from the one of this number on, since none of them lies farther off the line
// than so far. Where few points are left, looking at them costs less than trying.
pub(crate) fn passed_by(
    blocks: &Blocks,
    line: Chord,
    most: u128,
    number: usize,
    left: usize,
) -> usize
    ensures passed { (i : ℕ) (p : Point) → number ≤ i → i < number + result → IsCovered blocks.now i p → offset_of line.from line.to p ≤ most }
    ensures bound { result ≤ 4096 }
{
    if left < 16 {
        return 0;
    }
    if is_passed(&blocks.groups, number, 4096, line, most) {
        return 4096;
    }
    if is_passed(&blocks.blocks, number, 256, line, most) {
        return 256;
    }
    if is_passed(&blocks.leaves, number, 16, line, most) {
        return 16;
    }
    0
}

// Whether this is the first of so many numbers that have one of these extents, and nothing there lies farther off.
fn is_passed(extents: &[Extent], number: usize, size: usize, line: Chord, most: u128) -> bool
    requires { 0 < size }
    ensures { IsTrue result → (i : ℕ) (p : Point) → number ≤ i → i < number + size → HasAt extents.now (i / size) p → offset_of line.from line.to p ≤ most }
{
    if number % size != 0 || number / size >= extents.len() {
        return false;
    }
    most_within(line, extents[number / size]) <= most
}
