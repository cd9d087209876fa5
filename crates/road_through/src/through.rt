//! One least walk through places.

ghost use Rattle.std.specs.Prelude.{◌≡◌, ◌+◌, ◌^◌, ◌<◌, ◌≤◌, IfOk, IfErr, length};
ghost use Rattle.road_places.specs.Places.{ArePlacesOn};
ghost use Rattle.road_walks.specs.Least.{most_units};
ghost use Rattle.road_walks.specs.Legs.{AreWithinUnits};
ghost use Rattle.road_through.specs.Through.{IsLeastThrough, IsThroughFault};

use crate::routes::routes_by;
use crate::tables::leg_tables;
use customized::Under;
use road_base::Place;
use road_places::Route;
use road_walks::LegFault;
use std::alloc::Global;
use std::thread::Threads;
use through_query::{Chain, least_chain};

/// One least walk through all places: a route along each leg, each of which goes on along the vertex on which the one
/// before it ends, and no forbidden sequence of vertices runs along all of them, so that together they cost the least that
/// such routes can. Where no such walk leads through them it answers the first leg behind which none reaches. What each
/// route costs grows with the number of the network's vertices at most.
///
/// It answers `Memory` only where memory runs out.
pub fn least_through(
    rt: &(impl Threads + Sync),
    alloc: Global,
    under: &Under<'_>,
    places: &[Place],
) -> Result<Vec<Route>, LegFault>
    requires some { 2 ≤ length places.now }
    requires few { length places.now < 2 ^ 32 }
    requires placed { ArePlacesOn under.now.road.network places.now }
    ensures one_each { IfOk result (λ routes. length routes.items + 1 ≡ length places.now) }
    ensures through { IfOk result (λ routes. IsLeastThrough under.now.road places.now routes.items) }
    ensures bound { IfOk result (λ routes. AreWithinUnits (most_units under.now.road.network) routes.items) }
    ensures err { IfErr result (IsThroughFault under.now.road places.now) }
{
    let _alike = under.base();
    let network = under.network();
    let _sound = network.graph();
    let tables = leg_tables(rt, alloc, under, places)?;
    let chain = least_chain(alloc, &tables)?;
    match chain {
        Chain::States(states) => {
            let routes = routes_by(alloc, under, places, states.as_slice())?;
            Ok(routes)
        }
        Chain::Broken(leg) => Err(LegFault::NoWalk(leg)),
    }
}
