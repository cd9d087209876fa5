//! What the turns of a network cost under the rows of a turns file: what they cost by its profile, where no row is for
//! them.

ghost use Rattle.std.specs.Prelude.{◌≡◌, ℕ, ◌*◌, ◌<◌, ◌++◌, ◌∷◌, [], List, IfOk, OnOk, Some, None, All, length, map, false, not, count_by};
ghost use Rattle.std.specs.List.{slice_get};
ghost use Rattle.edge_graph.specs.NetworkView.{graph_of, vertices_of};
ghost use Rattle.metric_make.specs.LastRows.{AreTurnsTold};
ghost use Rattle.metric_make.specs.MetricOf.{arc_cost, turn_cost, turn_cost_of, turn_cost_under};
ghost use Rattle.metric_make.specs.TrafficRows.{is_turn_over};
ghost use Rattle.metric_make.specs.TurnParts.{row_at};
ghost use Rattle.search_graph.specs.RoadCosts.{road_cost_ops};

use crate::copies::{turn_at, with_arcs_out_of_copies};
use crate::turn_rows::{LastTurns, last_turns, matching_turn};
use crate::turns::turn_cost_of;
use cost_lists::FullCostList;
use edge_graph::Network;
use search_graph::{WeightDurLen, Weights};
use std::alloc::{AllocError, Global};
use traffic_files::TurnRow;

/// What the turns and the arcs out of copies cost, and how many rows matched none.
#[derive(Drop)]
pub(crate) struct TurnCosts {
    pub costs: FullCostList<WeightDurLen>,
    pub unmatched: u64,
}

// The row for a turn, which is matched from now on.
fn row_for(
    network: &Network,
    rows: &[TurnRow],
    last: &mut LastTurns,
    from: u32,
    to: u32,
) -> Option<TurnRow>
    requires from { from < 2 * length network.now.segments }
    requires to { to < 2 * length network.now.segments }
    requires told { (before : List (ℕ × ℕ)) × AreTurnsTold rows.now (λ q. is_turn_over (vertices_of network.now) before q.0 q.1 q.2) last.old }
    ensures row { result ≡ row_at rows.now (slice_get (vertices_of network.now) from) (slice_get (vertices_of network.now) to) }
    ensures told { (before : List (ℕ × ℕ)) → AreTurnsTold rows.now (λ q. is_turn_over (vertices_of network.now) before q.0 q.1 q.2) last.old → AreTurnsTold rows.now (λ q. is_turn_over (vertices_of network.now) (before ++ (from, to) ∷ []) q.0 q.1 q.2) last.new }
{
    let (tail, via) = (network.tail(from), network.head(from));
    matching_turn(rows, last, tail, via, network.head(to))
}

// What a turn that costs this by the profile costs under the row for it.
fn cost_under(by_distance: bool, by_profile: WeightDurLen, row: Option<TurnRow>) -> WeightDurLen
    requires { road_cost_ops.units by_profile 1 }
    ensures value { (penalty : ℕ) → by_profile ≡ turn_cost_of by_distance penalty None → result ≡ turn_cost_under by_distance penalty row }
    ensures unit { road_cost_ops.units result 1 }
{
    match row {
        Some(row) => turn_cost_of(by_distance, row.penalty, row.weight),
        None => by_profile,
    }
}

// What each turn costs; the rows for them are matched. There is room behind them for the arcs out of copies.
fn costs_by(
    alloc: Global,
    network: &Network,
    profile: &Weights<WeightDurLen>,
    rows: &[TurnRow],
    last: &mut LastTurns,
) -> Result<FullCostList<WeightDurLen>, AllocError>
    requires profile { profile.now.arc ≡ map (arc_cost network.now []) (graph_of network.now).arcs }
    requires unit { All (λ a. road_cost_ops.units a 1) profile.now.arc }
    requires told { AreTurnsTold rows.now (λ q. false) last.old }
    ensures value { IfOk result (λ costs. costs ≡ map (turn_cost network.now rows.now) network.now.turns) }
    ensures unit { IfOk result (λ costs. All (λ a. road_cost_ops.units a 1) costs) }
    ensures told { OnOk result (AreTurnsTold rows.now (λ q. is_turn_over (vertices_of network.now) network.now.turns q.0 q.1 q.2) last.new) }
{
    let by_distance = network.profile().by_distance();
    let graph = network.graph();
    let mut costs = FullCostList::with_capacity(alloc, graph.arcs() as usize)?;
    for i in 0..network.turns() {
        let (from, to) = turn_at(network, i);
        let row = row_for(network, rows, last, from, to);
        costs.push(cost_under(by_distance, profile.arc(i), row))?;
    }
    Ok(costs)
}

/// What each turn and each arc out of a copy costs under the rows of a turns file, beside what they cost by the profile.
pub(crate) fn arcs_under(
    alloc: Global,
    network: &Network,
    profile: &Weights<WeightDurLen>,
    rows: &[TurnRow],
) -> Result<TurnCosts, AllocError>
    requires profile { profile.now.arc ≡ map (arc_cost network.now []) (graph_of network.now).arcs }
    requires unit { All (λ a. road_cost_ops.units a 1) profile.now.arc }
    ensures value { IfOk result (λ found. found.costs ≡ map (arc_cost network.now rows.now) (graph_of network.now).arcs) }
    ensures unit { IfOk result (λ found. All (λ a. road_cost_ops.units a 1) found.costs) }
    ensures unmatched { IfOk result (λ found. found.unmatched ≡ count_by (λ row. not (is_turn_over (vertices_of network.now) network.now.turns row.from row.via row.to)) rows.now) }
{
    let mut last = last_turns(alloc, rows)?;
    let turns = costs_by(alloc, network, profile, rows, &mut last)?;
    let unmatched = last.unmatched;
    let costs = with_arcs_out_of_copies(network, turns)?;
    Ok(TurnCosts { costs, unmatched })
}
