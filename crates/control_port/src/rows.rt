//! The rows of two traffic files, and what they make of the metric that roads have by the profile alone.

ghost use Rattle.std.specs.Prelude.{◌≡◌, IfErr, IfOk};
ghost use Rattle.control_port.specs.Controlling.{AreRowsOf, IsBaseOf};
ghost use Rattle.control_port.specs.Judging.{IsFaultIn};
ghost use Rattle.metric_make.specs.MetricOf.{IsMetricOn, metric_of};

use customized::Roads;
use metric_make::{BaseMetric, metric};
use std::alloc::{AllocError, Global};
use std::marker::Model;
use traffic_files::{SpeedRow, TrafficFault, TurnRow, read_speeds, read_turns};

/// The rows of a speeds file and of a turns file, in file order, in the ranges that their readers give.
pub struct TrafficRows {
    speeds: Vec<SpeedRow>,
    turns: Vec<TurnRow>,
}

impl Drop for TrafficRows {
    fn drop(self) {
        let TrafficRows {
            speeds: _speeds,
            turns: _turns,
        } = self;
    }
}

impl Model for TrafficRows {
    ghost use Rattle.control_port.specs.Controlling.{BothRows};

    ghost Value = { BothRows };

    ghost use Rattle.traffic_files.specs.Ranges.{ArePenaltiesInRange, AreSpeedsInRange};

    ghost view = { λ r. record { speeds = r.speeds.items; turns = r.turns.items } };

    ghost invariant = { λ r. AreSpeedsInRange r.speeds.items × ArePenaltiesInRange r.turns.items };
}

/// The rows of two traffic files, of which the speeds file is read first. `Row` is their first faulty row.
pub fn rows_of_files(
    alloc: Global,
    speeds: &[u8],
    turns: &[u8],
) -> Result<TrafficRows, TrafficFault>
    ensures rows { IfOk result (λ rows. AreRowsOf speeds.now turns.now rows) }
    ensures fault { IfErr result (IsFaultIn speeds.now turns.now) }
{
    let speeds = read_speeds(alloc, speeds)?;
    let turns = read_turns(alloc, turns)?;
    Ok(TrafficRows { speeds, turns })
}

/// What the vertices and turns of roads cost under these rows, which are let go of.
pub fn base_of_rows(
    alloc: Global,
    roads: &Roads,
    rows: TrafficRows,
) -> Result<BaseMetric, AllocError>
    ensures base { IfOk result (λ base. base ≡ metric_of roads.now.network rows.speeds rows.turns) }
    ensures on { IfOk result (λ base. IsMetricOn roads.now.network base.weights) }
{
    let base = metric(
        alloc,
        roads.network(),
        roads.base(),
        &rows.speeds,
        &rows.turns,
    )?;
    Ok(base)
}

/// What the vertices and turns of roads cost under the rows of two traffic files, of which the speeds file is read
/// first. `Row` is their first faulty row.
pub fn base_of_files(
    alloc: Global,
    roads: &Roads,
    speeds: &[u8],
    turns: &[u8],
) -> Result<BaseMetric, TrafficFault>
    ensures base { IfOk result (IsBaseOf roads.now.network speeds.now turns.now) }
    ensures on { IfOk result (λ base. IsMetricOn roads.now.network base.weights) }
    ensures fault { IfErr result (IsFaultIn speeds.now turns.now) }
{
    let rows = rows_of_files(alloc, speeds, turns)?;
    let base = base_of_rows(alloc, roads, rows)?;
    Ok(base)
}
