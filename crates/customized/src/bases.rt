//! The costs that stand side by side in a metric.

ghost use Rattle.std.specs.Prelude.{◌≡◌, ◌<◌, All, IfOk, Some, length, map};
ghost use Rattle.std.specs.List.{AllZip, slice_get, zip};
ghost use Rattle.std.specs.Option.{ForSome};
ghost use Rattle.cell_recustomize.specs.Changes.{FitGraph};
ghost use Rattle.customized.specs.Exact.{AreChangesBetween};
ghost use Rattle.customized.specs.Excluding.{place_of, sets, weights_in, weights_under};
ghost use Rattle.metric_make.specs.Avoiding.{avoided};
ghost use Rattle.metric_make.specs.MetricOf.{IsMetricOn};

use cell_recustomize::{Changed, changed};
use edge_graph::Network;
use metric_make::BaseMetric;
use search_graph::{Graph, WeightDurLen, Weights};
use std::alloc::{AllocError, Global};

/// What the vertices and turns of a network cost, and what they cost those who avoid a set of classes that the
/// profile lets be avoided. All share the costs of the turns, so each set takes 8 bytes a vertex.
#[derive(Drop)]
pub(crate) struct Bases {
    /// without exclusion
    pub plain: BaseMetric,
    /// for each set, in the order of their numbers
    pub avoiding: Vec<BaseMetric>,
}

/// The place of a set among the weights and cliques of a metric, where those without exclusion stand first.
pub(crate) fn place_of(set: Option<u32>) -> usize
    ensures { result ≡ place_of set }
{
    match set {
        None => 0,
        Some(set) => set as usize + 1,
    }
}

// How many sets there are. No list of sets that take memory has as many as a number can't tell.
fn count_of(network: &Network) -> Result<u32, AllocError>
    ensures { IfOk result (λ count. count ≡ length network.now.profile.excludable) }
{
    match u32::try_from(network.profile().excludable().len()) {
        Ok(count) => Ok(count),
        Err(_) => Err(AllocError),
    }
}

// What the vertices and turns cost those who avoid a set, for each set.
fn avoiding(
    alloc: Global,
    network: &Network,
    plain: &BaseMetric,
) -> Result<Vec<BaseMetric>, AllocError>
    requires { IsMetricOn network.now plain.now.weights }
    ensures { IfOk result (λ avoiding. map (λ base. base.weights) avoiding.items ≡ map (λ set. avoided network.now set plain.now.weights) (sets network.now)) }
{
    let count = count_of(network)?;
    let mut avoiding = Vec::with_capacity(alloc, count as usize)?;
    for set in 0..count {
        let base = plain.avoid(alloc, network, set)?;
        avoiding.push(base)?;
    }
    Ok(avoiding)
}

impl Bases {
    /// Those of a network that costs so much without exclusion.
    pub fn of(alloc: Global, network: &Network, plain: BaseMetric) -> Result<Bases, AllocError>
        requires { IsMetricOn network.now plain.weights }
        ensures plain { IfOk result (λ bases. bases.plain ≡ plain) }
        ensures weights { IfOk result (λ bases. weights_in bases ≡ weights_under network.now plain.weights) }
    {
        let avoiding = avoiding(alloc, network, &plain)?;
        Ok(Bases { plain, avoiding })
    }

    /// Those of a set, or those without exclusion.
    pub fn get(&self, set: Option<u32>) -> &BaseMetric
        requires { ForSome set (λ k. k < length self.now.avoiding.items) }
        ensures { slice_get (weights_in self.now) (place_of set) ≡ Some result.now.weights }
    {
        match set {
            None => &self.plain,
            Some(set) => &self.avoiding[set as usize],
        }
    }

    /// All of them as a search takes them, those without exclusion first: copies that share their memory.
    pub fn weights(&self, alloc: Global) -> Result<Vec<Weights<WeightDurLen>>, AllocError>
        ensures { IfOk result (λ weights. weights.items ≡ weights_in self.now) }
    {
        let mut weights = Vec::with_capacity(alloc, self.avoiding.len())?;
        weights.push(self.plain.weights().copy()?)?;
        for base in &self.avoiding {
            weights.push(base.weights().copy()?)?;
        }
        Ok(weights)
    }
}

/// Where each of the weights of a graph differ from those that stood in their place before.
pub(crate) fn changes(
    alloc: Global,
    graph: &Graph,
    before: &[Weights<WeightDurLen>],
    after: &[Weights<WeightDurLen>],
) -> Result<Vec<Changed>, AllocError>
    requires many { length before.now ≡ length after.now }
    requires before { All (FitGraph graph.now) before.now }
    requires after { All (FitGraph graph.now) after.now }
    ensures { IfOk result (λ changes. AllZip AreChangesBetween (zip before.now after.now) changes.items) }
{
    let mut changes = Vec::with_capacity(alloc, after.len())?;
    for place in 0..after.len() {
        let places = changed(alloc, graph, &before[place], &after[place])?;
        changes.push(places)?;
    }
    Ok(changes)
}
