//! The states of a place.

ghost use Rattle.std.specs.Prelude.{◌≡◌, ◌^◌, ◌<◌, IfOk, length};
ghost use Rattle.road_places.specs.Places.{IsPlaceOn};
ghost use Rattle.road_walks.specs.Between.{states_of};

use edge_graph::Network;
use road_base::Place;
use std::alloc::{AllocError, Global};

/// The vertices of the searched graph that stand for a direction of the place's segment: forward, backward, and then the
/// copies of the one and of the other. On a network without copies these are two. It answers an error only where memory
/// runs out.
pub fn states_of(alloc: Global, network: &Network, place: Place) -> Result<Vec<u32>, AllocError>
    requires { IsPlaceOn network.now place }
    ensures states { IfOk result (λ states. states.items ≡ states_of network.now place) }
    ensures few { IfOk result (λ states. length states.items < 2 ^ 32) }
{
    let _few = network.segments();
    let _graph = network.graph();
    let forward = 2 * place.segment;
    let backward = forward + 1;
    let mut states = Vec::with_capacity(alloc, 2)?;
    states.push(forward)?;
    states.push(backward)?;
    states.extend_from_slice(network.copies(forward))?;
    states.extend_from_slice(network.copies(backward))?;
    Ok(states)
}
