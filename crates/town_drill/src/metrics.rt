//! The metrics of a drill.

ghost use Rattle.std.specs.Prelude.{◌≡◌, ◌+◌, ◌++◌, ◌<◌, ◌≤◌, IfOk, OnOk, [], pos};
ghost use Rattle.std.specs.List.{flat_map};
ghost use Rattle.customized.specs.Exact.{customized_on};
ghost use Rattle.metric_make.specs.MetricOf.{metric_of};
ghost use Rattle.town_drill.specs.Asked.{has_row, row_at, rows_along, speed_row, speed_rows};
ghost use Rattle.town_text.specs.Town.{node_id};

use customized::{Metric, Roads};
use metric_make::metric;
use std::alloc::{AllocError, Global};
use std::thread::Threads;
use traffic_files::SpeedRow;

// Whether there is a row under a metric from the node in a column and a row.
fn has_row(metric: u32, column: u32, row: u32) -> bool
    requires metric { metric < 4 }
    requires column { column ≤ 1000 }
    requires row { row ≤ 1000 }
    ensures { result ≡ has_row metric column row }
{
    (column + row + metric) % 5 == 0
}

// The id of the node in a column and a row.
fn node_id(n: u32, column: u32, row: u32) -> i64
    requires few { n ≤ 1000 }
    requires column { column < n }
    requires row { row < n }
    ensures { result ≡ pos (node_id n column row) }
{
    i64::from(row * n + column + 1)
}

// The row under a metric from the node in a column and a row to the next one to the east.
fn speed_row(n: u32, metric: u32, column: u32, row: u32) -> SpeedRow
    requires few { n ≤ 1000 }
    requires metric { metric < 4 }
    requires column { column + 1 < n }
    requires row { row < n }
    ensures { result ≡ speed_row n metric column row }
{
    SpeedRow {
        from: node_id(n, column, row),
        to: node_id(n, column + 1, row),
        speed: 10_000 * metric,
        rate: None,
    }
}

// Puts that row behind others, if there is one.
fn push_row(
    rows: &mut Vec<SpeedRow>,
    n: u32,
    metric: u32,
    column: u32,
    row: u32,
) -> Result<(), AllocError>
    requires few { n ≤ 1000 }
    requires metric { metric < 4 }
    requires column { column + 1 < n }
    requires row { row < n }
    ensures { OnOk result (rows.new.items ≡ rows.old.items ++ row_at n metric column row) }
{
    if has_row(metric, column, row) {
        rows.push(speed_row(n, metric, column, row))?;
    }
    Ok(())
}

// Puts the rows under a metric along a row of the town behind others.
fn push_rows_along(
    rows: &mut Vec<SpeedRow>,
    n: u32,
    metric: u32,
    row: u32,
) -> Result<(), AllocError>
    requires some { 1 ≤ n }
    requires few { n ≤ 1000 }
    requires metric { metric < 4 }
    requires row { row < n }
    ensures { OnOk result (rows.new.items ≡ rows.old.items ++ rows_along n metric row) }
{
    for column in 0..n - 1 {
        push_row(rows, n, metric, column, row)?;
    }
    Ok(())
}

// The speed rows of the metric of this number.
#[tactic(auto, unfolding(crate::specs::Asked::speed_rows))]
fn speed_rows(alloc: Global, n: u32, metric: u32) -> Result<Vec<SpeedRow>, AllocError>
    requires some { 1 ≤ n }
    requires few { n ≤ 1000 }
    requires metric { metric < 4 }
    ensures { IfOk result (λ rows. rows.items ≡ speed_rows n metric) }
{
    let mut rows = Vec::new(alloc);
    if metric == 0 {
        return Ok(rows);
    }
    for row in 0..n {
        push_rows_along(&mut rows, n, metric, row)?;
    }
    Ok(rows)
}

/// The metric of this number of roads, customized in threads. It answers an error only where memory runs out.
pub(crate) fn metric_of(
    rt: &(impl Threads + Sync),
    alloc: Global,
    roads: &Roads,
    n: u32,
    number: u32,
) -> Result<Metric, AllocError>
    requires some { 1 ≤ n }
    requires few { n ≤ 1000 }
    requires number { number < 4 }
    ensures { IfOk result (λ m. m ≡ customized_on roads.now (metric_of roads.now.network (speed_rows n number) [])) }
{
    let rows = speed_rows(alloc, n, number)?;
    let base = metric(alloc, roads.network(), roads.base(), &rows, &[])?;
    Metric::make(rt, alloc, roads, base)
}
