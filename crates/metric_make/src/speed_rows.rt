//! The rows of a speeds file by the two nodes that they are for.

ghost use Rattle.std.specs.Prelude.{◌≡◌, ℤ, Bool, false, ◌||◌, IfOk};
ghost use Rattle.metric_make.specs.LastRows.{AreSpeedsTold, pair_eq};
ghost use Rattle.metric_make.specs.TrafficRows.{speed_for};

use crate::last_rows::{LastRow, add_row, count_of, row_at};
use std::alloc::{AllocError, Global};
use std::collections::HashMap;
use traffic_files::SpeedRow;

/// The last rows by their two nodes, and how many rows are not matched.
#[derive(Drop)]
pub(crate) struct LastSpeeds {
    pub entries: HashMap<(i64, i64), LastRow>,
    pub unmatched: u64,
}

/// The last rows of a file, none of them matched.
pub(crate) fn last_speeds(alloc: Global, rows: &[SpeedRow]) -> Result<LastSpeeds, AllocError>
    ensures { IfOk result (AreSpeedsTold rows.now (λ q. false)) }
{
    let count = count_of(rows)?;
    let mut entries = HashMap::with_capacity(alloc, rows.len())?;
    for i in 0..count {
        let row = rows[i as usize];
        add_row(&mut entries, (row.from, row.to), i)?;
    }
    Ok(LastSpeeds {
        entries,
        unmatched: u64::from(count),
    })
}

/// The row that decides the speed and the rate from one node to the next, which is matched from now on, and with it all rows for these nodes.
pub(crate) fn matching_speed(
    rows: &[SpeedRow],
    last: &mut LastSpeeds,
    tail: i64,
    head: i64,
) -> Option<SpeedRow>
    requires { (matched : ℤ × ℤ → Bool) × AreSpeedsTold rows.now matched last.old }
    ensures row { result ≡ speed_for rows.now tail head }
    ensures told { (matched : ℤ × ℤ → Bool) → AreSpeedsTold rows.now matched last.old → AreSpeedsTold rows.now (λ q. matched q || pair_eq (tail, head) q) last.new }
{
    match last.entries.get_mut(&(tail, head)) {
        Some(entry) => {
            last.unmatched -= u64::from(entry.unmatched);
            entry.unmatched = 0;
            row_at(rows, entry.row)
        }
        None => None,
    }
}
