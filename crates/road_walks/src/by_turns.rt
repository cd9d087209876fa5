//! Walks of two or more vertices between two places.

ghost use Rattle.std.specs.Prelude.{◌*◌, ◌<◌, IfOk, IfSome, length};
ghost use Rattle.std.specs.List.{Contains};
ghost use Rattle.path_unpack.specs.Cheapest.{IsCheapest};
ghost use Rattle.search_graph.specs.RoadCosts.{road_cost_ops};
ghost use Rattle.edge_graph.specs.NetworkView.{graph_of};
ghost use Rattle.road_places.specs.Ends.{AreAll};
ghost use Rattle.road_places.specs.Permitted.{IsByTurns, IsStart};
ghost use Rattle.road_places.specs.Places.{IsPlaceOn};
ghost use Rattle.road_walks.specs.Choosing.{IsLeastOf};
ghost use Rattle.road_walks.specs.Least.{most_units};
ghost use Rattle.road_walks.specs.Searched.{IsTargetIn};

use crate::cheapest::route_of;
use crate::copies::add_copies;
use customized::Under;
use path_unpack::cheapest_from;
use plain_search::{Found, SearchFault};
use road_base::Place;
use road_places::{Route, starts, targets};
use search_graph::{Start, Target, WeightDurLen};
use std::alloc::{AllocError, Global};
use step_search::Search;

/// Where a walk from a place may start: each is a vertex of the network and of the frame, and costs at most one unit.
pub(crate) fn starts_from(
    alloc: Global,
    under: &Under<'_>,
    from: Place,
) -> Result<Vec<Start<WeightDurLen>>, AllocError>
    requires { IsPlaceOn under.now.road.network from }
    ensures all { IfOk result (λ starts. AreAll (IsStart under.now.road.weights from) starts.items) }
    ensures ordinary { IfOk result (λ starts. (s : _) → Contains starts.items s → s.vertex < 2 * length under.now.road.network.segments) }
    ensures fit { IfOk result (λ starts. (s : _) → Contains starts.items s → (s.vertex < under.now.frame.graph.vertices) × road_cost_ops.units s.cost 1) }
{
    let _graph = under.frame();
    let base = under.base();
    let _units = base.weights();
    let starts = starts(alloc, base, from)?;
    Ok(starts)
}

/// Where a walk over the searched graph to a place may end, at copies of vertices too: each is a vertex of the frame, and
/// costs at most one unit.
pub(crate) fn targets_to(
    alloc: Global,
    under: &Under<'_>,
    to: Place,
) -> Result<Vec<Target<WeightDurLen>>, AllocError>
    requires { IsPlaceOn under.now.road.network to }
    ensures all { IfOk result (λ targets. AreAll (IsTargetIn under.now.road to) targets.items) }
    ensures fit { IfOk result (λ targets. (t : _) → Contains targets.items t → (t.vertex < under.now.frame.graph.vertices) × road_cost_ops.units t.cost 1) }
{
    let _graph = under.frame();
    let base = under.base();
    let _units = base.weights();
    let mut targets = targets(alloc, base, to)?;
    add_copies(under.network(), &mut targets)?;
    Ok(targets)
}

/// The least walk over the network's graph from one of the starts to one of the targets, or none.
pub(crate) fn over_graph(
    alloc: Global,
    under: &Under<'_>,
    starts: &[Start<WeightDurLen>],
    targets: &[Target<WeightDurLen>],
) -> Result<Option<Found<WeightDurLen>>, AllocError>
    requires starts { (s : _) → Contains starts.now s → (s.vertex < under.now.frame.graph.vertices) × road_cost_ops.units s.cost 1 }
    requires targets { (t : _) → Contains targets.now t → (t.vertex < under.now.frame.graph.vertices) × road_cost_ops.units t.cost 1 }
    ensures { IfOk result (IsCheapest road_cost_ops (graph_of under.now.road.network) under.now.road.weights starts.now targets.now) }
{
    let searches = under.searches();
    let mut search = searches.take(alloc);
    let found = found_by(alloc, under, starts, targets, &mut search);
    searches.give(search);
    found
}

// The same in the memory of a search.
fn found_by(
    alloc: Global,
    under: &Under<'_>,
    starts: &[Start<WeightDurLen>],
    targets: &[Target<WeightDurLen>],
    search: &mut Search<WeightDurLen>,
) -> Result<Option<Found<WeightDurLen>>, AllocError>
    requires starts { (s : _) → Contains starts.now s → (s.vertex < under.now.frame.graph.vertices) × road_cost_ops.units s.cost 1 }
    requires targets { (t : _) → Contains targets.now t → (t.vertex < under.now.frame.graph.vertices) × road_cost_ops.units t.cost 1 }
    ensures { IfOk result (IsCheapest road_cost_ops (graph_of under.now.road.network) under.now.road.weights starts.now targets.now) }
{
    let frame = under.frame();
    let base = under.base();
    let cliques = under.cliques();
    match cheapest_from(
        alloc,
        frame,
        base.weights(),
        cliques,
        starts,
        targets,
        search,
    ) {
        Ok(found) => Ok(found),
        Err(SearchFault::Memory) => Err(AllocError),
    }
}

/// The least walk of two or more vertices from a place to another, or None where there is none.
pub(crate) fn by_turns(
    alloc: Global,
    under: &Under<'_>,
    from: Place,
    to: Place,
) -> Result<Option<Route>, AllocError>
    requires from { IsPlaceOn under.now.road.network from }
    requires to { IsPlaceOn under.now.road.network to }
    ensures least { IfOk result (IsLeastOf (IsByTurns under.now.road from to)) }
    ensures bound { IfOk result (λ found. IfSome found (λ route. road_cost_ops.units route.cost (most_units under.now.road.network))) }
{
    let starts = starts_from(alloc, under, from)?;
    let targets = targets_to(alloc, under, to)?;
    let _small = under.base();
    let network = under.network();
    let _sound = network.graph();
    let found = over_graph(alloc, under, &starts, &targets)?;
    Ok(route_of(network, found))
}
