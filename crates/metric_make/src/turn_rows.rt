//! The rows of a turns file by the three nodes that they are for.

ghost use Rattle.std.specs.Prelude.{◌≡◌, ℤ, Bool, false, ◌||◌, IfOk};
ghost use Rattle.metric_make.specs.LastRows.{AreTurnsTold, triple_eq};
ghost use Rattle.metric_make.specs.TrafficRows.{turn_for};

use crate::last_rows::{LastRow, add_row, count_of, row_at};
use std::alloc::{AllocError, Global};
use std::collections::HashMap;
use traffic_files::TurnRow;

/// The last rows by their three nodes, and how many rows are not matched.
#[derive(Drop)]
pub(crate) struct LastTurns {
    pub entries: HashMap<(i64, i64, i64), LastRow>,
    pub unmatched: u64,
}

/// The last rows of a file, none of them matched.
pub(crate) fn last_turns(alloc: Global, rows: &[TurnRow]) -> Result<LastTurns, AllocError>
    ensures { IfOk result (AreTurnsTold rows.now (λ q. false)) }
{
    let count = count_of(rows)?;
    let mut entries = HashMap::with_capacity(alloc, rows.len())?;
    for i in 0..count {
        let row = rows[i as usize];
        add_row(&mut entries, (row.from, row.via, row.to), i)?;
    }
    Ok(LastTurns {
        entries,
        unmatched: u64::from(count),
    })
}

/// The row that decides the penalty and the weight of going over three nodes in turn, which is matched from now on, and with it all rows for these nodes.
pub(crate) fn matching_turn(
    rows: &[TurnRow],
    last: &mut LastTurns,
    from: i64,
    via: i64,
    to: i64,
) -> Option<TurnRow>
    requires { (matched : ℤ × ℤ × ℤ → Bool) × AreTurnsTold rows.now matched last.old }
    ensures row { result ≡ turn_for rows.now from via to }
    ensures told { (matched : ℤ × ℤ × ℤ → Bool) → AreTurnsTold rows.now matched last.old → AreTurnsTold rows.now (λ q. matched q || triple_eq (from, via, to) q) last.new }
{
    match last.entries.get_mut(&(from, via, to)) {
        Some(entry) => {
            last.unmatched -= u64::from(entry.unmatched);
            entry.unmatched = 0;
            row_at(rows, entry.row)
        }
        None => None,
    }
}
