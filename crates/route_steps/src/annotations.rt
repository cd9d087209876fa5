//! What tells of a walk vertex by vertex.

ghost use Rattle.std.specs.Prelude.{◌≡◌, ◌*◌, ◌<◌, All, IfOk, length};
ghost use Rattle.search_graph.specs.declared.costs.WeightDurLen.{WeightDurLen};
ghost use Rattle.road_places.specs.Paid.{AddUpTo, paid_along};
ghost use Rattle.road_places.specs.Permitted.{IsPermitted};
ghost use Rattle.road_places.specs.Places.{IsPlaceOn};
ghost use Rattle.metric_make.specs.RoadMetric.{road_of};
ghost use Rattle.route_steps.specs.Annotations.{nodes_along};

use crate::paid::{Costs, paid_along};
use edge_graph::Network;
use metric_make::BaseMetric;
use road_base::{Ids, Place};
use std::alloc::{AllocError, Global};

/// What a walk pays and which nodes it passes.
pub struct Annotation {
    /// for each vertex what the walk pays of it, turns not counted
    pub paid: Costs,
    /// the id of the node where the first vertex begins, and of that where each vertex ends
    pub nodes: Ids,
}

impl Drop for Annotation {
    fn drop(self) {
        let Annotation {
            paid: _paid,
            nodes: _nodes,
        } = self;
    }
}

/// What a permitted walk from one place to another pays at each of its vertices, and the nodes along it. With
/// what the turns cost the entries add up to what the walk costs. It answers an error only where memory runs out.
pub fn annotate(
    alloc: Global,
    base: &BaseMetric,
    network: &Network,
    walk: &[u32],
    from: Place,
    to: Place,
) -> Result<Annotation, AllocError>
    requires walk { (d : WeightDurLen) × IsPermitted (road_of network.now base.now) from to walk.now d }
    requires from { IsPlaceOn network.now from }
    requires to { IsPlaceOn network.now to }
    ensures paid { IfOk result (λ a. a.paid ≡ paid_along base.now.weights from to walk.now) }
    ensures nodes { IfOk result (λ a. a.nodes ≡ nodes_along network.now.segments walk.now) }
    ensures sums { IfOk result (λ a. (d : WeightDurLen) → IsPermitted (road_of network.now base.now) from to walk.now d → AddUpTo (road_of network.now base.now) walk.now a.paid d) }
{
    // tells a proof that all turns are in range
    let _turns = network.graph();
    let paid = paid_along(alloc, base, walk, from, to)?;
    let nodes = nodes_along(alloc, network, walk)?;
    Ok(Annotation { paid, nodes })
}

// The nodes along a walk.
fn nodes_along(alloc: Global, network: &Network, walk: &[u32]) -> Result<Ids, AllocError>
    requires some { 0 < length walk.now }
    requires in_range { All (λ v. v < 2 * length network.now.segments) walk.now }
    ensures { IfOk result (λ nodes. nodes ≡ nodes_along network.now.segments walk.now) }
{
    let mut nodes = Vec::with_capacity(alloc, walk.len() + 1)?;
    nodes.push(network.tail(walk[0]))?;
    for v in walk {
        nodes.push(network.head(*v))?;
    }
    Ok(Ids::of(nodes))
}
