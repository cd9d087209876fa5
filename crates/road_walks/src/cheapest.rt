//! The cheaper of walks.

ghost use Rattle.std.specs.Prelude.{◌≡◌, ◌<◌, All, IfSome, map, option_map};
ghost use Rattle.edge_graph.specs.NetworkView.{graph_of, stands};
ghost use Rattle.road_walks.specs.Choosing.{IsCheaperOf, route_of};

use edge_graph::Network;
use plain_search::Found;
use road_places::{Route, Walk};
use search_graph::WeightDurLen;

/// Of two routes the one that costs less, the first where neither does.
pub(crate) fn cheaper(a: Option<Route>, b: Option<Route>) -> Option<Route>
    ensures { IsCheaperOf a b result }
{
    match (a, b) {
        (Some(first), Some(second)) => {
            if second.cost < first.cost {
                Some(second)
            } else {
                Some(first)
            }
        }
        (Some(only), None) | (None, Some(only)) => Some(only),
        (None, None) => None,
    }
}

// Puts in place of each vertex of the searched graph the one of the network for which it stands.
fn stand_for(network: &Network, walk: &mut Vec<u32>)
    requires { All (λ v. v < (graph_of network.now).vertices) walk.old.items }
    ensures { walk.new.items ≡ map (stands network.now) walk.old.items }
{
    for place in 0..walk.len() {
        walk[place] = network.stands_for(walk[place]);
    }
}

/// The route of a walk that a search over the searched graph found: its vertices are those of the network for which those
/// of the walk stand.
pub(crate) fn route_of(network: &Network, found: Option<Found<WeightDurLen>>) -> Option<Route>
    requires { IfSome found (λ f. All (λ v. v < (graph_of network.now).vertices) f.walk) }
    ensures { result ≡ option_map (route_of network.now) found }
{
    let found = found?;
    let mut walk = found.walk.into_vec();
    stand_for(network, &mut walk);
    Some(Route {
        cost: found.cost,
        walk: Walk::of(walk),
    })
}
