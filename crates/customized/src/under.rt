//! What an answer under a metric needs of it.

ghost use Rattle.std.specs.Prelude.{◌≡◌, length};
ghost use Rattle.cell_frame.specs.Cliqued.{AreExact};
ghost use Rattle.edge_graph.specs.NetworkView.{graph_of};
ghost use Rattle.head_index.specs.ByHead.{AreByHead};
ghost use Rattle.metric_make.specs.MetricOf.{AreAlike};
ghost use Rattle.search_graph.specs.RoadCosts.{road_cost_ops};
ghost use Rattle.search_graph.specs.Weighted.{AreSmall};

use cell_frame::{Cliques, Frame};
use edge_graph::Network;
use head_index::HeadIndex;
use metric_make::BaseMetric;
use search_graph::WeightDurLen;
use search_pool::SearchPool;
use std::marker::Model;

/// A network with its costs, the frame of its graph, the arcs of that by their heads, and cliques that are exact for just
/// these costs: all that an answer under a metric needs of it. Contracts see the costs and the frame.
#[derive(Drop)]
pub struct Under<'a> {
    pub(crate) network: &'a Network,
    pub(crate) frame: &'a Frame,
    pub(crate) heads: &'a HeadIndex,
    pub(crate) base: &'a BaseMetric,
    pub(crate) cliques: &'a Cliques<WeightDurLen>,
    pub(crate) searches: &'a SearchPool<WeightDurLen>,
}

impl<'a> Model for Under<'a> {
    ghost use Rattle.customized.specs.Exact.{Customized, IsExact};
    ghost use Rattle.edge_graph.specs.NetworkView.{graph_of};
    ghost use Rattle.head_index.specs.ByHead.{AreByHead};
    ghost use Rattle.metric_make.specs.RoadMetric.{road_of};

    ghost Value = { Customized };

    ghost view = { λ u. record { road = road_of u.network.now u.base.now; frame = u.frame.now } };

    ghost invariant = { λ u. IsExact (record { road = road_of u.network.now u.base.now; frame = u.frame.now }) u.cliques.now × AreByHead (graph_of u.network.now) u.heads.now };
}

impl<'a> Under<'a> {
    /// The network.
    pub fn network(&self) -> &Network
        ensures { result.now ≡ self.now.road.network }
    {
        self.network
    }

    /// The frame of its graph.
    pub fn frame(&self) -> &Frame
        ensures value { result.now ≡ self.now.frame }
        ensures graph { self.now.frame.graph ≡ graph_of self.now.road.network }
    {
        self.frame
    }

    /// The arcs of the graph by their heads.
    pub fn heads(&self) -> &HeadIndex
        ensures { AreByHead (graph_of self.now.road.network) result.now }
    {
        self.heads
    }

    /// What the vertices and turns of the network cost.
    pub fn base(&self) -> &BaseMetric
        ensures value { result.now.weights ≡ self.now.road.weights }
        ensures small { AreSmall road_cost_ops (graph_of self.now.road.network) self.now.road.weights }
        ensures alike { AreAlike self.now.road.network self.now.road.weights }
    {
        self.base
    }

    /// What cheapest walks cost inside the cells of the frame, under just these costs.
    pub fn cliques(&self) -> &Cliques<WeightDurLen>
        ensures { AreExact road_cost_ops self.now.frame self.now.road.weights result.now (length self.now.frame.cells.levels) }
    {
        self.cliques
    }

    /// Memory for searches of the graph, to be taken and given back.
    pub fn searches(&self) -> &SearchPool<WeightDurLen> {
        self.searches
    }
}
