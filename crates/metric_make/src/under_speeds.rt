//! What the vertices of a network cost under the rows of a speeds file: what they cost by its profile, where no row is for
//! them.

ghost use Rattle.std.specs.Prelude.{◌≡◌, ℕ, ◌+◌, ◌*◌, ◌^◌, ◌<◌, [], List, IfOk, OnOk, Some, All, true, length, map, not, option_map, count_by};
ghost use Rattle.std.specs.List.{slice_get};
ghost use Rattle.std.specs.Option.{ForSome};
ghost use Rattle.edge_graph.specs.NetworkView.{vertices_of};
ghost use Rattle.metric_make.specs.MetricOf.{AreWithinUnit, IsShort, cost_under, vertex_cost, with_copies};
ghost use Rattle.metric_make.specs.RowsOfWays.{AreRowsTold};
ghost use Rattle.metric_make.specs.TrafficRows.{is_way, speed_for};
ghost use Rattle.road_segments.specs.Vertex.{Vertex};
ghost use Rattle.search_graph.specs.RoadCosts.{road_cost_ops};
ghost use Rattle.traffic_files.specs.Ranges.{AreSpeedsInRange, IsSpeedInRange};
ghost use Rattle.traffic_files.specs.declared.rows.SpeedRow.{SpeedRow};

use crate::copies::with_copies;
use crate::rows_of_ways::{RowsOfWays, rows_of_ways, speed_of_way};
use crate::speed_rows::{LastSpeeds, last_speeds, matching_speed};
use crate::vertices::cost_of;
use cost_lists::CostList;
use edge_graph::Network;
use search_graph::{WeightDurLen, Weights};
use std::alloc::{AllocError, Global};
use traffic_files::SpeedRow;

/// What the vertices and their copies cost, and how many rows matched none.
#[derive(Drop)]
pub(crate) struct VertexCosts {
    pub costs: CostList<WeightDurLen>,
    pub unmatched: u64,
}

/// The rows of a speeds file in a table: of the nodes that they are for, where those are matched that vertices have asked
/// for, or of the nodes of all permitted vertices, where each is matched at first that is for some of them.
#[derive(Drop)]
pub(crate) enum SpeedTable {
    OfRows(LastSpeeds),
    OfWays(RowsOfWays),
}

impl SpeedTable {
    // How many rows are not matched.
    fn unmatched(&self) -> u64
        ensures { (vs : List Vertex) (rows : List SpeedRow) → AreRowsTold vs rows (length vs) self.now → result ≡ count_by (λ row. not (is_way vs row.from row.to)) rows }
    {
        match self {
            SpeedTable::OfRows(last) => last.unmatched,
            SpeedTable::OfWays(found) => found.unmatched,
        }
    }
}

// The table in which these rows are found. One of all vertices costs less than one of all rows, once there are as many
// rows as segments; a file of a few rows doesn't have to pay for it.
fn table_of(alloc: Global, network: &Network, rows: &[SpeedRow]) -> Result<SpeedTable, AllocError>
    ensures { IfOk result (AreRowsTold (vertices_of network.now) rows.now 0) }
{
    let has_few_rows = rows.len() < network.segments() as usize;
    if has_few_rows {
        Ok(SpeedTable::OfRows(last_speeds(alloc, rows)?))
    } else {
        Ok(SpeedTable::OfWays(rows_of_ways(alloc, network, rows)?))
    }
}

// The row for a permitted vertex, which is matched from now on.
fn row_for(network: &Network, rows: &[SpeedRow], table: &mut SpeedTable, v: u32) -> Option<SpeedRow>
    requires vertex { v < 2 * length network.now.segments }
    requires permitted { option_map (λ x. x.permitted) (slice_get (vertices_of network.now) v) ≡ Some true }
    requires told { AreRowsTold (vertices_of network.now) rows.now v table.old }
    ensures row { (x : Vertex) → slice_get (vertices_of network.now) v ≡ Some x → result ≡ speed_for rows.now x.tail x.head }
    ensures told { AreRowsTold (vertices_of network.now) rows.now (v + 1) table.new }
{
    if rows.is_empty() {
        return None;
    }
    let (tail, head) = (network.tail(v), network.head(v));
    match table {
        SpeedTable::OfRows(last) => matching_speed(rows, last, tail, head),
        SpeedTable::OfWays(found) => speed_of_way(rows, found, v, tail, head),
    }
}

// What a permitted vertex of this length costs under the row for it.
fn cost_under(by_distance: bool, decimetres: u64, row: SpeedRow) -> Option<WeightDurLen>
    requires row { IsSpeedInRange row }
    requires length { decimetres < 2 ^ 29 }
    ensures value { (speed : ℕ) → result ≡ cost_under by_distance decimetres speed (Some row) }
    ensures unit { ForSome result (λ x. road_cost_ops.units x 1) }
    ensures short { ForSome result IsShort }
{
    if row.speed == 0 {
        None
    } else {
        Some(cost_of(by_distance, decimetres, row.speed, row.rate))
    }
}

// What a vertex costs that costs this by the profile; the row for it is matched from now on.
fn cost(
    network: &Network,
    rows: &[SpeedRow],
    table: &mut SpeedTable,
    v: u32,
    by_profile: Option<WeightDurLen>,
) -> Option<WeightDurLen>
    requires in_range { AreSpeedsInRange rows.now }
    requires vertex { v < 2 * length network.now.segments }
    requires profile { option_map (vertex_cost network.now.profile.by_distance []) (slice_get (vertices_of network.now) v) ≡ Some by_profile }
    requires unit { ForSome by_profile (λ x. road_cost_ops.units x 1) }
    requires short { ForSome by_profile IsShort }
    requires told { AreRowsTold (vertices_of network.now) rows.now v table.old }
    ensures value { option_map (vertex_cost network.now.profile.by_distance rows.now) (slice_get (vertices_of network.now) v) ≡ Some result }
    ensures unit { ForSome result (λ x. road_cost_ops.units x 1) }
    ensures short { ForSome result IsShort }
    ensures told { AreRowsTold (vertices_of network.now) rows.now (v + 1) table.new }
{
    let cost = by_profile?;
    match row_for(network, rows, table, v) {
        Some(row) => cost_under(network.profile().by_distance(), cost.length, row),
        None => Some(cost),
    }
}

// What each vertex costs; the rows for them are matched. There is room behind them for the copies.
fn costs_by(
    alloc: Global,
    network: &Network,
    profile: &Weights<WeightDurLen>,
    rows: &[SpeedRow],
    table: &mut SpeedTable,
) -> Result<CostList<WeightDurLen>, AllocError>
    requires profile { profile.now.vertex ≡ with_copies network.now (map (vertex_cost network.now.profile.by_distance []) (vertices_of network.now)) }
    requires within { AreWithinUnit profile.now }
    requires in_range { AreSpeedsInRange rows.now }
    requires told { AreRowsTold (vertices_of network.now) rows.now 0 table.old }
    ensures value { IfOk result (λ costs. costs ≡ map (vertex_cost network.now.profile.by_distance rows.now) (vertices_of network.now)) }
    ensures unit { IfOk result (λ costs. All (λ o. ForSome o (λ x. road_cost_ops.units x 1)) costs) }
    ensures short { IfOk result (λ costs. All (λ o. ForSome o IsShort) costs) }
    ensures told { OnOk result (AreRowsTold (vertices_of network.now) rows.now (2 * length network.now.segments) table.new) }
{
    let mut costs = CostList::with_capacity(alloc, network.graph().vertices() as usize)?;
    for v in 0..2 * network.segments() {
        costs.push(cost(network, rows, table, v, profile.vertex(v)))?;
    }
    Ok(costs)
}

/// What each vertex and each copy costs under the rows of a speeds file, beside what they cost by the profile.
pub(crate) fn vertices_under(
    alloc: Global,
    network: &Network,
    profile: &Weights<WeightDurLen>,
    rows: &[SpeedRow],
) -> Result<VertexCosts, AllocError>
    requires profile { profile.now.vertex ≡ with_copies network.now (map (vertex_cost network.now.profile.by_distance []) (vertices_of network.now)) }
    requires within { AreWithinUnit profile.now }
    requires in_range { AreSpeedsInRange rows.now }
    ensures value { IfOk result (λ found. found.costs ≡ with_copies network.now (map (vertex_cost network.now.profile.by_distance rows.now) (vertices_of network.now))) }
    ensures unit { IfOk result (λ found. All (λ o. ForSome o (λ x. road_cost_ops.units x 1)) found.costs) }
    ensures short { IfOk result (λ found. All (λ o. ForSome o IsShort) found.costs) }
    ensures unmatched { IfOk result (λ found. found.unmatched ≡ count_by (λ row. not (is_way (vertices_of network.now) row.from row.to)) rows.now) }
{
    let mut table = table_of(alloc, network, rows)?;
    let ordinary = costs_by(alloc, network, profile, rows, &mut table)?;
    let unmatched = table.unmatched();
    let costs = with_copies(network, ordinary)?;
    Ok(VertexCosts { costs, unmatched })
}
