//! Metrics of roads, customized whole.

ghost use Rattle.std.specs.Prelude.{◌≡◌, ◌<◌, ◌↔◌, IfOk, length};
ghost use Rattle.std.specs.Option.{ForSome};
ghost use Rattle.cell_frame.specs.Cliqued.{AreExact};
ghost use Rattle.edge_graph.specs.NetworkView.{graph_of};
ghost use Rattle.customized.specs.Exact.{IsRemadeBy, ShareRoads, customized_on, excluding, roads_of};
ghost use Rattle.metric_make.specs.Avoiding.{avoided};
ghost use Rattle.edge_graph.specs.Sound.{IsSoundNetwork};
ghost use Rattle.metric_make.specs.MetricOf.{AreAlike, IsMetricOn};
ghost use Rattle.search_graph.specs.RoadCosts.{road_cost_ops};
ghost use Rattle.search_graph.specs.Weighted.{AreSmall};

use crate::bases::{Bases, changes, place_of};
use crate::roads::Roads;
use crate::under::Under;
use cell_frame::{Cliques, Frame};
use class_sets::{CliqueSets, customize_all, recustomize_all};
use edge_graph::Network;
use metric_make::BaseMetric;
use metric_publish::Kindred;
use search_graph::WeightDurLen;
use std::alloc::{AllocError, Global};
use std::marker::Model;
use std::thread::Threads;

/// What the vertices and turns of roads cost, with what cheapest walks cost inside each of their cells for
/// just these costs; and both for those who avoid a set of classes, for each set of the profile's `excludable`.
/// Contracts see the costs without exclusion and the frame; that the costs for a set are those of `avoid`, and the
/// cliques exact for just those costs beside which they stand, is true of each metric.
pub struct Metric {
    roads: Roads,
    bases: Bases,
    cliques: CliqueSets<WeightDurLen>,
}

impl Drop for Metric {
    fn drop(self) {
        let Metric {
            roads: _roads,
            bases: _bases,
            cliques: _cliques,
        } = self;
    }
}

impl Model for Metric {
    ghost use Rattle.customized.specs.Exact.{Customized, IsExactForEach, customized_on};
    ghost use Rattle.customized.specs.Excluding.{weights_in};

    ghost Value = { Customized };

    ghost view = { λ m. customized_on m.roads m.bases.plain };

    ghost invariant = { λ m. IsExactForEach (customized_on m.roads m.bases.plain) (weights_in m.bases) m.cliques };
}

/// A metric that was made from another, and how many searches it took: one from each entry of each cell that the
/// change touches.
#[derive(Drop)]
pub struct Remade {
    pub metric: Metric,
    pub searches: u64,
}

/// Metrics of the same network and frame may stand on one board.
impl Kindred for Metric {
    ghost use Rattle.std.specs.Prelude.{refl};
    ghost use Rattle.customized.specs.Exact.{ShareRoads, share_both};

    ghost akin = { ShareRoads };

    ghost itself = { λ x. (refl, refl) };

    ghost together = { share_both };
}

impl Metric {
    /// The metric of roads under these costs, which `base` of `metric_make` gives for their network, and for each
    /// set of classes of its profile under those that `avoid` gives. It customizes all cells for each of these costs,
    /// those of a level side by side in threads, and answers an error only where memory runs out.
    pub fn make(
        rt: &(impl Threads + Sync),
        alloc: Global,
        roads: &Roads,
        base: BaseMetric,
    ) -> Result<Metric, AllocError>
        requires { IsMetricOn roads.now.network base.weights }
        ensures { IfOk result (λ metric. metric ≡ customized_on roads.now base) }
    {
        let roads = roads.copy()?;
        known_small(&roads, &base);
        let bases = Bases::of(alloc, roads.network(), base)?;
        let weights = bases.weights(alloc)?;
        let cliques = customize_all(rt, alloc, roads.frame(), &weights)?;
        Ok(Metric {
            roads,
            bases,
            cliques,
        })
    }

    /// The metric of the same roads under these costs, which `base` of `metric_make` gives for their network: the
    /// same as `make` gives. But without exclusion, and for each set, it customizes only those cells, side by side in
    /// threads, that hold a vertex whose costs change there, or both ends of a turn whose costs do; all others keep
    /// what the old metric has of them. It answers an error only where memory runs out.
    pub fn remake(
        rt: &(impl Threads + Sync),
        alloc: Global,
        old: &Metric,
        base: BaseMetric,
    ) -> Result<Remade, AllocError>
        requires base { IsMetricOn old.now.road.network base.weights }
        ensures metric { IfOk result (λ made. made.metric ≡ customized_on (roads_of old.now) base) }
        ensures searches { IfOk result (λ made. IsRemadeBy old.now base.weights made.searches) }
    {
        let roads = old.roads.copy()?;
        let frame = old.frame();
        let _small = old.base(None);
        known_small(&roads, &base);
        let bases = Bases::of(alloc, roads.network(), base)?;
        let before = old.bases.weights(alloc)?;
        let after = bases.weights(alloc)?;
        let changes = changes(alloc, frame.graph(), &before, &after)?;
        let made = recustomize_all(rt, alloc, frame, &after, &old.cliques, &changes)?;
        let metric = Metric {
            roads,
            bases,
            cliques: made.sets,
        };
        Ok(Remade {
            metric,
            searches: made.searches,
        })
    }

    /// The roads that it is a metric of.
    pub fn roads(&self) -> &Roads
        ensures { result.now ≡ roads_of self.now }
    {
        &self.roads
    }

    /// The network.
    pub fn network(&self) -> &Network
        ensures { result.now ≡ self.now.road.network }
    {
        self.roads.network()
    }

    /// The frame of its graph.
    pub fn frame(&self) -> &Frame
        ensures value { result.now ≡ self.now.frame }
        ensures graph { self.now.frame.graph ≡ graph_of self.now.road.network }
    {
        self.roads.frame()
    }

    /// What the vertices and turns of the network cost, without exclusion or to those who avoid a set of the
    /// profile's `excludable`.
    pub fn base(&self, set: Option<u32>) -> &BaseMetric
        requires { ForSome set (λ k. k < length self.now.road.network.profile.excludable) }
        ensures value { result.now.weights ≡ avoided self.now.road.network set self.now.road.weights }
        ensures small { AreSmall road_cost_ops (graph_of self.now.road.network) (avoided self.now.road.network set self.now.road.weights) }
        ensures alike { AreAlike self.now.road.network (avoided self.now.road.network set self.now.road.weights) }
    {
        self.bases.get(set)
    }

    /// What cheapest walks cost inside the cells of the frame, under just these costs.
    pub fn cliques(&self, set: Option<u32>) -> &Cliques<WeightDurLen>
        requires { ForSome set (λ k. k < length self.now.road.network.profile.excludable) }
        ensures { AreExact road_cost_ops self.now.frame (avoided self.now.road.network set self.now.road.weights) result.now (length self.now.frame.cells.levels) }
    {
        self.cliques.get(place_of(set))
    }

    /// What an answer under this metric needs of it, without exclusion or for those who avoid a set of the
    /// profile's `excludable`.
    pub fn under(&self, set: Option<u32>) -> Under<'_>
        requires { ForSome set (λ k. k < length self.now.road.network.profile.excludable) }
        ensures { result ≡ excluding set self.now }
    {
        Under {
            network: self.roads.network(),
            frame: self.roads.frame(),
            heads: self.roads.heads(),
            base: self.base(set),
            cliques: self.cliques(set),
            searches: self.roads.searches(),
        }
    }

    /// Tells a proof that exactly the metrics of one network and one frame may stand on one board. It does
    /// nothing.
    pub fn kin(&self, other: &Metric)
        ensures { ⟦<Metric as Kindred>⟧.akin self.now other.now ↔ ShareRoads self.now other.now }
    {
        let _ = &self.roads;
        let _ = &other.roads;
    }
}

// Tells a proof that the costs of roads are small and alike for all that stands for one vertex or turn, and that their
// frame is over the graph of a sound network. It does nothing.
fn known_small(roads: &Roads, base: &BaseMetric)
    requires { IsMetricOn roads.now.network base.now.weights }
    ensures network { AreSmall road_cost_ops (graph_of roads.now.network) base.now.weights }
    ensures frame { AreSmall road_cost_ops roads.now.frame.graph base.now.weights }
    ensures graph { roads.now.frame.graph ≡ graph_of roads.now.network }
    ensures sound { IsSoundNetwork roads.now.network }
    ensures alike { AreAlike roads.now.network base.now.weights }
{
    let _graph = roads.frame();
    let _sound = roads.network().graph();
    let _units = base.weights();
}
