//! The metric of a network.

ghost use Rattle.std.specs.Prelude.{◌≡◌, ◌<◌, [], List, IfOk, OnOk, Some, length};
ghost use Rattle.std.specs.List.{slice_get};
ghost use Rattle.std.specs.Option.{ForSome};
ghost use Rattle.edge_graph.specs.NetworkView.{graph_of};
ghost use Rattle.metric_make.specs.Avoiding.{avoided};
ghost use Rattle.metric_make.specs.MetricOf.{AreWithinUnit, IsMetricOn, IsShort, base_of, metric_of};
ghost use Rattle.search_graph.specs.RoadCosts.{road_cost_ops};
ghost use Rattle.traffic_files.specs.Ranges.{ArePenaltiesInRange, AreSpeedsInRange};
ghost use Rattle.traffic_files.specs.declared.rows.SpeedRow.{SpeedRow};
ghost use Rattle.traffic_files.specs.declared.rows.TurnRow.{TurnRow};

use crate::avoiding::avoided_costs;
use crate::copies::{with_arcs_out_of_copies, with_copies};
use crate::turns::turn_costs;
use crate::under_speeds::vertices_under;
use crate::under_turns::arcs_under;
use crate::vertices::vertex_costs;
use cost_lists::{CostList, FullCostList};
use edge_graph::Network;
use search_graph::{WeightDurLen, Weights, small_weights};
use std::alloc::{AllocError, Global};
use std::marker::Model;
use traffic_files::{SpeedRow, TurnRow};

/// What each vertex and each arc of the graph that is searched costs, the vertices and turns of a network and behind them
/// the copies and the arcs out of these: 8 bytes a vertex and 8 bytes an arc, and 24 more for one whose weight is neither
/// its duration nor its length, as a rate or the weight of a row may make it. Each cost is within one unit, 2^32 of each
/// part.
pub struct BaseMetric {
    weights: Weights<WeightDurLen>,
    unmatched: u64,
}

impl Drop for BaseMetric {
    fn drop(self) {
        let BaseMetric {
            weights: _weights,
            unmatched: _unmatched,
        } = self;
    }
}

impl Model for BaseMetric {
    ghost use Rattle.metric_make.specs.MetricOf.{MetricView};

    ghost Value = { MetricView };

    ghost use Rattle.metric_make.specs.MetricOf.{AreWithinUnit};

    ghost view = { λ b. record { weights = b.weights; unmatched = b.unmatched } };

    ghost invariant = { λ b. AreWithinUnit b.weights };
}

/// The metric of a network by the profile of its vehicle alone. A vertex that is not permitted has no
/// cost; a permitted one costs the decimetres between its two points, at least 1, and the deciseconds
/// for them at its speed, rounded down, at least 1. A turn costs the profile's penalty, and no length: back
/// onto its own segment that of turning back; else, where the vertex before it has two or more exits, that
/// of its bend; else none; and that of a signal beside it where one stands at the node. The weight of each is its
/// duration, or its length where the profile weighs by distance. It answers an error only where memory runs out.
pub fn base(alloc: Global, network: &Network) -> Result<BaseMetric, AllocError>
    ensures value { IfOk result (λ metric. metric ≡ base_of network.now) }
    ensures on { OnOk result (IsMetricOn network.now (base_of network.now).weights) }
{
    let vertices = with_copies(network, vertex_costs(alloc, network)?)?;
    let arcs = with_arcs_out_of_copies(network, turn_costs(alloc, network)?)?;
    of_costs(alloc, network, vertices, arcs, 0)
}

/// The metric of a network under the rows of a speeds file and of a turns file, in file order, in the ranges that
/// their readers give. It begins each time with `base`, the metric of the network by its profile alone: what no row is for
/// costs what it does there, and where there are no rows of a kind its memory is shared.
///
/// A row of speeds is for each permitted vertex from its one node to its other: its speed counts in place of the
/// vertex's own, and 0 closes the vertex, which leaves all turns as they are. Where it has a rate, in thousandths of a
/// metre per unit of weight, the vertex weighs its decimetres * 1000 / rate in tenths of that unit, rounded down, at
/// least 1, however the profile weighs. A row of turns is for each turn over its three nodes: its penalty counts in
/// place of the profile's whole one, and so does its weight, in tenths, where it has one. Of several rows for one vertex
/// or turn the last counts alone. A copy of a vertex costs what the vertex does, and an arc of the searched graph what the
/// turn does for which it stands. It answers an error only where memory runs out.
pub fn metric(
    alloc: Global,
    network: &Network,
    base: &BaseMetric,
    speeds: &[SpeedRow],
    turns: &[TurnRow],
) -> Result<BaseMetric, AllocError>
    requires base { base.now ≡ base_of network.now }
    requires speeds { AreSpeedsInRange speeds.now }
    requires penalties { ArePenaltiesInRange turns.now }
    ensures value { IfOk result (λ metric. metric ≡ metric_of network.now speeds.now turns.now) }
    ensures on { OnOk result (IsMetricOn network.now (metric_of network.now speeds.now turns.now).weights) }
{
    if turns.is_empty() {
        return base.under_speeds(alloc, network, speeds);
    }
    let profile = base.weights();
    let vertex = vertices_under(alloc, network, profile, speeds)?;
    let arc = arcs_under(alloc, network, profile, turns)?;
    let unmatched = vertex.unmatched + arc.unmatched;
    of_costs(alloc, network, vertex.costs, arc.costs, unmatched)
}

// The metric of a network by what all vertices and arcs cost, where so many rows matched nothing.
fn of_costs(
    alloc: Global,
    network: &Network,
    vertices: CostList<WeightDurLen>,
    arcs: FullCostList<WeightDurLen>,
    unmatched: u64,
) -> Result<BaseMetric, AllocError>
    requires vertices { length vertices ≡ (graph_of network.now).vertices }
    requires arcs { length arcs ≡ length (graph_of network.now).arcs }
    requires within { AreWithinUnit (record { vertex = vertices; arc = arcs }) }
    ensures value { IfOk result (λ metric. metric ≡ record { weights = record { vertex = vertices; arc = arcs }; unmatched = unmatched }) }
    ensures on { (speeds : List SpeedRow) (turns : List TurnRow) → record { vertex = vertices; arc = arcs } ≡ (metric_of network.now speeds turns).weights → IsMetricOn network.now (metric_of network.now speeds turns).weights }
{
    let graph = network.graph();
    Ok(BaseMetric {
        weights: small_weights(alloc, graph, vertices, arcs)?,
        unmatched,
    })
}

impl BaseMetric {
    /// A copy, which shares the memory of this one. It answers the error where no more can share it.
    pub fn copy(&self) -> Result<BaseMetric, AllocError>
        ensures { IfOk result (λ copy. copy ≡ self.now) }
    {
        Ok(BaseMetric {
            weights: self.weights.copy()?,
            unmatched: self.unmatched,
        })
    }

    // This metric of the profile alone under the rows of a speeds file: the arcs are shared, and the vertices too where there
    // are no rows.
    fn under_speeds(
        &self,
        alloc: Global,
        network: &Network,
        rows: &[SpeedRow],
    ) -> Result<BaseMetric, AllocError>
        requires profile { self.now ≡ base_of network.now }
        requires in_range { AreSpeedsInRange rows.now }
        ensures value { IfOk result (λ metric. metric ≡ metric_of network.now rows.now []) }
        ensures on { OnOk result (IsMetricOn network.now (metric_of network.now rows.now []).weights) }
    {
        let profile = self.weights();
        let _few = network.graph();
        if rows.is_empty() {
            return self.copy();
        }
        let vertex = vertices_under(alloc, network, profile, rows)?;
        Ok(BaseMetric {
            weights: self.weights.with_vertices(alloc, vertex.costs)?,
            unmatched: vertex.unmatched,
        })
    }

    /// The metric of those who avoid the classes of a set, that of this number among the profile's `excludable`:
    /// each vertex of a way with one of these classes is closed, and so are its copies. All else is as here: turns keep
    /// their costs, whose memory both share, and so the number of exits that they were made by. It takes 8 bytes a
    /// vertex, and answers an error only where memory runs out.
    pub fn avoid(
        &self,
        alloc: Global,
        network: &Network,
        set: u32,
    ) -> Result<BaseMetric, AllocError>
        requires of { IsMetricOn network.now self.now.weights }
        requires set { set < length network.now.profile.excludable }
        ensures value { IfOk result (λ b. b ≡ record { weights = avoided network.now (Some set) self.now.weights; unmatched = self.now.unmatched }) }
        ensures on { OnOk result (IsMetricOn network.now (avoided network.now (Some set) self.now.weights)) }
    {
        let names = &network.profile().excludable()[set as usize];
        let ordinary = avoided_costs(alloc, network, &self.weights, names)?;
        let vertex = with_copies(network, ordinary)?;
        let _few = network.graph();
        Ok(BaseMetric {
            weights: self.weights.with_vertices(alloc, vertex)?,
            unmatched: self.unmatched,
        })
    }

    /// What vertex `v` costs, or None where it is closed. It takes less than 2^31 deciseconds, some seven years, and
    /// weighs less than 2^31 tenths.
    pub fn vertex(&self, v: u32) -> Option<WeightDurLen>
        requires { v < length self.now.weights.vertex }
        ensures value { slice_get self.now.weights.vertex v ≡ Some result }
        ensures unit { ForSome result (λ x. road_cost_ops.units x 1) }
        ensures short { ForSome result IsShort }
    {
        self.weights.vertex(v)
    }

    /// What turn `i` costs, or behind the turns what arc `i` out of a copy does.
    pub fn turn(&self, i: u32) -> WeightDurLen
        requires { i < length self.now.weights.arc }
        ensures value { slice_get self.now.weights.arc i ≡ Some result }
        ensures unit { road_cost_ops.units result 1 }
    {
        self.weights.arc(i)
    }

    /// The costs as a search takes them.
    pub fn weights(&self) -> &Weights<WeightDurLen>
        ensures value { result.now ≡ self.now.weights }
        ensures unit { AreWithinUnit result.now }
    {
        &self.weights
    }

    /// How many rows of its traffic files matched no permitted vertex, or no turn.
    pub fn unmatched(&self) -> u64
        ensures { result ≡ self.now.unmatched }
    {
        self.unmatched
    }
}
