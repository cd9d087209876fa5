//! Road networks cut into cells.

ghost use Rattle.std.specs.Prelude.{◌≡◌, ◌≤◌, All, IfOk};
ghost use Rattle.std.specs.List.Sorted.{IsStrictlyIncreasing};
ghost use Rattle.edge_graph.specs.NetworkView.{graph_of};
ghost use Rattle.customized.specs.Framing.{IsFrameOf, limits_below, server_limits};
ghost use Rattle.head_index.specs.ByHead.{AreByHead};
ghost use Rattle.metric_make.specs.MetricOf.{IsMetricOn, base_of};

use crate::midpoints::midpoints;
use cell_frame::Frame;
use cell_partition::{PartitionError, cells};
use edge_graph::Network;
use head_index::HeadIndex;
use metric_make::{BaseMetric, base};
use search_graph::WeightDurLen;
use search_pool::SearchPool;
use std::alloc::{AllocError, Global};
use std::marker::Model;
use std::sync::Arc;

/// How many vertices the cells of each level have at most, the lowest level first, where a server cuts a large
/// network.
pub const SERVER_LIMITS: [u32; 5] = [256, 4096, 65536, 1048576, 16777216];

/// How many searches that have ended are kept with their memory: as many requests that are answered at one time find one.
const SPARE_SEARCHES: usize = 16;

/// A road network with the frame of its graph, the arcs of that by their heads, what its vertices and turns cost by the
/// profile alone, of which the metrics under traffic rows are made, and memory for searches. Contracts see the network and the
/// frame.
pub struct Roads {
    network: Arc<Network>,
    frame: Arc<Frame>,
    heads: Arc<HeadIndex>,
    base: BaseMetric,
    searches: Arc<SearchPool<WeightDurLen>>,
}

impl Drop for Roads {
    fn drop(self) {
        let Roads {
            network: _network,
            frame: _frame,
            heads: _heads,
            base: _base,
            searches: _searches,
        } = self;
    }
}

impl Model for Roads {
    ghost use Rattle.customized.specs.Framing.{RoadsView};

    ghost Value = { RoadsView };

    ghost use Rattle.std.specs.Arc.{arc_value};
    ghost use Rattle.customized.specs.Parts.{AreRoads};

    ghost view = { λ r. record { network = arc_value r.network; frame = arc_value r.frame } };

    ghost invariant = { λ r. AreRoads (arc_value r.network) (arc_value r.frame) (arc_value r.heads) r.base };
}

impl Roads {
    /// A network cut into cells by where its vertices lie: those of level 1 have at most as many vertices as
    /// the first limit, those of the highest level at most as many as the last. It answers an error only where
    /// memory runs out.
    pub fn of(alloc: Global, network: Network, limits: &[u32]) -> Result<Roads, AllocError>
        requires ascending { IsStrictlyIncreasing limits.now }
        requires some { All (λ limit. 1 ≤ limit) limits.now }
        ensures network { IfOk result (λ roads. roads.network ≡ network) }
        ensures frame { IfOk result (λ roads. IsFrameOf network limits.now roads.frame) }
    {
        let frame = frame_of(alloc, &network, limits)?;
        let heads = HeadIndex::of(alloc, network.graph())?;
        let base = base(alloc, &network)?;
        let searches = SearchPool::with_room(alloc, SPARE_SEARCHES)?;
        Ok(Roads {
            network: Arc::new(alloc, network)?,
            frame: Arc::new(alloc, frame)?,
            heads: Arc::new(alloc, heads)?,
            base,
            searches: Arc::new(alloc, searches)?,
        })
    }

    /// A network cut as a server cuts its own: by those of `SERVER_LIMITS` that are below the number of its vertices. Under
    /// any other limit all vertices would be one cell, which has no border, so that no search could leap over it. It answers
    /// an error only where memory runs out.
    pub fn for_server(alloc: Global, network: Network) -> Result<Roads, AllocError>
        ensures network { IfOk result (λ roads. roads.network ≡ network) }
        ensures frame { IfOk result (λ roads. IsFrameOf network (server_limits (graph_of network).vertices) roads.frame) }
    {
        let vertices = network.graph().vertices();
        let limits = limits_below(alloc, &SERVER_LIMITS, vertices)?;
        Roads::of(alloc, network, &limits)
    }

    /// The network.
    pub fn network(&self) -> &Network
        ensures { result.now ≡ self.now.network }
    {
        &self.network
    }

    /// The frame of its graph.
    pub fn frame(&self) -> &Frame
        ensures value { result.now ≡ self.now.frame }
        ensures graph { self.now.frame.graph ≡ graph_of self.now.network }
    {
        &self.frame
    }

    /// The arcs of the graph by their heads.
    pub fn heads(&self) -> &HeadIndex
        ensures { AreByHead (graph_of self.now.network) result.now }
    {
        &self.heads
    }

    /// What the vertices and turns of the network cost by the profile alone.
    pub fn base(&self) -> &BaseMetric
        ensures value { result.now ≡ base_of self.now.network }
        ensures on { IsMetricOn self.now.network (base_of self.now.network).weights }
    {
        &self.base
    }

    /// Memory for searches of the graph, to be taken and given back. All copies of these roads share it.
    pub fn searches(&self) -> &SearchPool<WeightDurLen> {
        &self.searches
    }

    /// Roads that share the memory of these. It answers the error where no more can share it.
    pub fn copy(&self) -> Result<Roads, AllocError>
        ensures { IfOk result (λ roads. roads ≡ self.now) }
    {
        Ok(Roads {
            network: Arc::try_clone(&self.network)?,
            frame: Arc::try_clone(&self.frame)?,
            heads: Arc::try_clone(&self.heads)?,
            base: self.base.copy()?,
            searches: Arc::try_clone(&self.searches)?,
        })
    }
}

// Of these limits those that are below a number of vertices.
fn limits_below(alloc: Global, limits: &[u32], vertices: u32) -> Result<Vec<u32>, AllocError>
    ensures { IfOk result (λ below. below.items ≡ limits_below vertices limits.now) }
{
    limits
        .iter()
        .copied()
        .filter(|limit| *limit < vertices)
        .collect(alloc)
}

// The frame of a network's graph, by these limits.
fn frame_of(alloc: Global, network: &Network, limits: &[u32]) -> Result<Frame, AllocError>
    requires ascending { IsStrictlyIncreasing limits.now }
    requires some { All (λ limit. 1 ≤ limit) limits.now }
    ensures { IfOk result (IsFrameOf network.now limits.now) }
{
    let graph = network.graph();
    let midpoints = midpoints(alloc, network)?;
    match cells(alloc, &midpoints, limits) {
        Ok(cells) => {
            let frame = Frame::of(alloc, graph, cells)?;
            frame.known();
            Ok(frame)
        }
        Err(PartitionError::Memory(error)) => Err(error),
    }
}
