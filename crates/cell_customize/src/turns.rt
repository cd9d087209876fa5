//! In which order the pieces of a level are taken.

ghost use Rattle.std.specs.Prelude.{◌<◌, ◌≤◌, length};
ghost use Rattle.cell_partition.specs.Partition.{level_at};
ghost use Rattle.cell_customize.specs.Levels.{piece_count};

use crate::side_by_side::{PIECES, cut};
use cell_frame::{Cell, Frame};
use std::alloc::{AllocError, Global};

// Levels of fewer cells than these have an order of their own. In others the last pieces are a small part of all, and neighbouring
// pieces, one after another, find some of what they read in the caches.
const FEW_CELLS: u32 = 64;

/// In a level of few cells the order in which threads take its pieces: first those of the most searches, one from each entry of a
/// cell, so that the threads end together (R. L. Graham, Bounds on Multiprocessing Timing Anomalies, 1969).
// Only time rests on it, so no more is promised than that pieces are named.
#[derive(Drop)]
pub struct Turns {
    // How many entries a piece has, times the count of pieces, and its place beside that; rising. None in a level of many cells.
    keys: Vec<u64>,
}

// How many entries the cells from number `from` on and below `to` have.
fn entries_within(frame: &Frame, level: u32, from: u32, to: u32) -> u64
    requires above { 1 ≤ level }
    requires below { level ≤ length frame.now.cells.levels }
    requires to { to ≤ length (level_at frame.now.cells level) }
{
    let mut entries: u64 = 0;
    for number in from..to {
        let cell = Cell { level, number };
        entries = entries.saturating_add(frame.entries(cell).len() as u64);
    }
    entries
}

// The keys of all pieces of a level, rising.
fn keys_of(alloc: Global, frame: &Frame, level: u32) -> Result<Vec<u64>, AllocError>
    requires above { 1 ≤ level }
    requires below { level ≤ length frame.now.cells.levels }
{
    let count = frame.count(level);
    let mut keys = Vec::with_capacity(alloc, PIECES as usize)?;
    for place in 0..PIECES {
        let from = cut(count, place);
        let to = cut(count, place + 1);
        let entries = entries_within(frame, level, from, to);
        let key = entries
            .saturating_mul(u64::from(PIECES))
            .saturating_add(u64::from(place));
        keys.push(key)?;
    }
    keys.sort_unstable();
    Ok(keys)
}

impl Turns {
    /// Those of a level. It answers the error where memory runs out.
    pub fn of(alloc: Global, frame: &Frame, level: u32) -> Result<Turns, AllocError>
        requires above { 1 ≤ level }
        requires below { level ≤ length frame.now.cells.levels }
    {
        let keys = if frame.count(level) < FEW_CELLS {
            keys_of(alloc, frame, level)?
        } else {
            Vec::new(alloc)
        };
        Ok(Turns { keys })
    }

    /// The place of the piece that is taken behind so many others.
    pub fn place(&self, turn: usize) -> usize
        requires { turn < piece_count }
        ensures { result < piece_count }
    {
        let last = PIECES as usize - 1;
        match self.keys.get(last - turn) {
            Some(key) => (*key % u64::from(PIECES)) as usize,
            None => turn,
        }
    }
}
