//! What the rows of a file are to the nodes that they are for.

ghost use Rattle.std.specs.Prelude.{◌≡◌, ◌+◌, ◌^◌, ◌<◌, ◌≤◌, IfOk, OnOk, Some, length, if◌then◌else◌};
ghost use Rattle.std.specs.HashMap.{get};
ghost use Rattle.std.specs.List.{slice_get};
ghost use Rattle.metric_make.specs.LastRows.{added, waiting};

use std::alloc::AllocError;
use std::collections::HashMap;
use std::hash::Hash;

/// The last row of a file for some nodes.
#[derive(Clone, Copy, Drop)]
pub(crate) struct LastRow {
    /// its number from 0
    pub row: u32,
    /// how many rows are for these nodes, as long as no vertex or turn of the network has them, and 0 once one has
    pub unmatched: u32,
}

/// How many rows there are. No list of rows that take memory has as many as a number can't tell.
pub(crate) fn count_of<T>(rows: &[T]) -> Result<u32, AllocError>
    ensures { IfOk result (λ count. count ≡ length rows.now) }
{
    match u32::try_from(rows.len()) {
        Ok(count) => Ok(count),
        Err(_) => Err(AllocError),
    }
}

/// Puts the row of a number last for its nodes, of which it looks for those once that have no row yet.
pub(crate) fn add_row<K: Hash + Eq + Copy + Drop>(
    entries: &mut HashMap<K, LastRow>,
    nodes: K,
    row: u32,
) -> Result<(), AllocError>
    requires few { waiting (get K.eq entries.old nodes) ≤ row }
    requires number { row + 1 < 2 ^ 32 }
    ensures { OnOk result ((q : K) → get K.eq entries.new q ≡ (if K.eq nodes q then Some (added row (get K.eq entries.old nodes)) else get K.eq entries.old q)) }
{
    let first = LastRow { row, unmatched: 1 };
    if let Some(before) = entries.insert(nodes, first)? {
        let unmatched = before.unmatched + 1;
        entries.insert(nodes, LastRow { row, unmatched })?;
    }
    Ok(())
}

/// The row of a number, if there is one.
pub(crate) fn row_at<T: Copy>(rows: &[T], row: u32) -> Option<T>
    ensures { result ≡ slice_get rows.now row }
{
    let place = row as usize;
    if place < rows.len() {
        Some(rows[place])
    } else {
        None
    }
}
