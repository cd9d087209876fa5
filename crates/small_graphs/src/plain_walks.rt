//! What plain search finds, as a text.

ghost use Rattle.search_graph.specs.RoadCosts.{road_cost_ops};
ghost use Rattle.search_graph.specs.Weighted.{IsWeighting};

use crate::ends::{starts, targets};
use cost_texts::{cost_told, vertices_told};
use plain_search::{Found, SearchFault, least_from};
use search_graph::{Graph, WeightDurLen, Weights};
use std::alloc::{AllocError, Global};

/// For each target its cost and its walk, `-` where there is none.
pub fn walks_told(
    alloc: Global,
    found: &[Option<Found<WeightDurLen>>],
) -> Result<String, AllocError> {
    let mut text = String::new(alloc);
    for found in found {
        text.push_str(cost_told(alloc, found.as_ref().map(|found| found.cost))?.as_str())?;
        if let Some(found) = found {
            text.push_str(vertices_told(alloc, found.walk.as_slice())?.as_str())?;
        }
        text.push_str("| ")?;
    }
    Ok(text)
}

/// A cheapest walk to each target, by plain search.
pub fn plain_told(
    alloc: Global,
    graph: &Graph,
    weights: &Weights<WeightDurLen>,
    from: &str,
    to: &str,
) -> Result<String, SearchFault>
    requires { IsWeighting road_cost_ops graph.now weights.now }
{
    let starts = starts(alloc, graph.vertices(), from)?;
    let targets = targets(alloc, graph.vertices(), to)?;
    let found = least_from(alloc, graph, weights, &starts, &targets)?;
    Ok(walks_told(alloc, &found)?)
}
