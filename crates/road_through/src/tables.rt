//! What legs cost from state to state.

ghost use Rattle.std.specs.Prelude.{◌≡◌, ◌<◌, IfOk, length};
ghost use Rattle.road_places.specs.Places.{ArePlacesOn, IsPlaceOn};
ghost use Rattle.road_walks.specs.Between.{states_of};
ghost use Rattle.road_through.specs.States.{AreTables, IsTableOf};

use customized::Under;
use edge_graph::Network;
use road_base::Place;
use road_walks::{leg_costs, states_of};
use std::alloc::{AllocError, Global};
use std::thread::Threads;
use through_query::LegCosts;

// How many states a place has.
fn state_count(alloc: Global, network: &Network, place: Place) -> Result<u32, AllocError>
    requires { IsPlaceOn network.now place }
    ensures { IfOk result (λ count. count ≡ length (states_of network.now place)) }
{
    let states = states_of(alloc, network, place)?;
    Ok(states.len() as u32)
}

// What the leg from a place to another costs.
fn table_of(
    rt: &(impl Threads + Sync),
    alloc: Global,
    under: &Under<'_>,
    from: Place,
    to: Place,
) -> Result<LegCosts, AllocError>
    requires from { IsPlaceOn under.now.road.network from }
    requires to { IsPlaceOn under.now.road.network to }
    ensures { IfOk result (IsTableOf under.now.road (from, to)) }
{
    let network = under.network();
    let starts = state_count(alloc, network, from)?;
    let ends = state_count(alloc, network, to)?;
    let costs = leg_costs(rt, alloc, under, from, to)?;
    Ok(LegCosts {
        starts,
        ends,
        costs,
    })
}

/// A table for each leg: what least walks along it cost from each state of its first place to each of its second.
pub(crate) fn leg_tables(
    rt: &(impl Threads + Sync),
    alloc: Global,
    under: &Under<'_>,
    places: &[Place],
) -> Result<Vec<LegCosts>, AllocError>
    requires some { 0 < length places.now }
    requires placed { ArePlacesOn under.now.road.network places.now }
    ensures { IfOk result (λ tables. AreTables under.now.road places.now tables.items) }
{
    let mut tables = Vec::with_capacity(alloc, places.len() - 1)?;
    for leg in 0..places.len() - 1 {
        let table = table_of(rt, alloc, under, places[leg], places[leg + 1])?;
        tables.push(table)?;
    }
    Ok(tables)
}
