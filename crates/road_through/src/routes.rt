//! Least routes along legs between given states of their places.

ghost use Rattle.std.specs.Prelude.{◌≡◌, ◌<◌, Some, IfOk, length};
ghost use Rattle.std.specs.List.{slice_get};
ghost use Rattle.road_places.specs.Places.{ArePlacesOn, IsPlaceOn};
ghost use Rattle.road_walks.specs.Between.{states_of};
ghost use Rattle.road_walks.specs.Least.{most_units};
ghost use Rattle.road_walks.specs.Legs.{AreWithinUnits};
ghost use Rattle.road_through.specs.States.{AreRoutesBy, HasRoutesBy};

use customized::Under;
use edge_graph::Network;
use road_base::Place;
use road_places::Route;
use road_walks::{least_route_between, states_of};
use std::alloc::{AllocError, Global};

// The state of a place that has this number.
fn state_at(alloc: Global, network: &Network, place: Place, number: u32) -> Result<u32, AllocError>
    requires placed { IsPlaceOn network.now place }
    requires inside { number < length (states_of network.now place) }
    ensures { IfOk result (λ state. slice_get (states_of network.now place) number ≡ Some state) }
{
    let states = states_of(alloc, network, place)?;
    Ok(states[number as usize])
}

/// A least route along each leg of those that begin and end in the states of its places.
pub(crate) fn routes_by(
    alloc: Global,
    under: &Under<'_>,
    places: &[Place],
    states: &[u32],
) -> Result<Vec<Route>, AllocError>
    requires some { 0 < length places.now }
    requires placed { ArePlacesOn under.now.road.network places.now }
    requires one_each { length states.now ≡ length places.now }
    requires reach { HasRoutesBy under.now.road places.now states.now }
    ensures routes { IfOk result (λ routes. AreRoutesBy under.now.road places.now states.now routes.items) }
    ensures bound { IfOk result (λ routes. AreWithinUnits (most_units under.now.road.network) routes.items) }
{
    let network = under.network();
    let mut routes = Vec::with_capacity(alloc, places.len() - 1)?;
    for leg in 0..places.len() - 1 {
        let (from, to) = (places[leg], places[leg + 1]);
        let first = state_at(alloc, network, from, states[leg])?;
        let last = state_at(alloc, network, to, states[leg + 1])?;
        let found = least_route_between(alloc, under, from, to, (first, last))?;
        match found {
            Some(route) => routes.push(route)?,
            None => unreachable!(),
        }
    }
    Ok(routes)
}
