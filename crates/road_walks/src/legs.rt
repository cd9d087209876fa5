//! Least routes along the legs of a list of places.

ghost use Rattle.std.specs.Prelude.{◌≡◌, ◌+◌, ◌^◌, ◌<◌, IfOk, IfErr, length};
ghost use Rattle.road_places.specs.Places.{ArePlacesOn};
ghost use Rattle.road_walks.specs.Least.{most_units};
ghost use Rattle.road_walks.specs.Legs.{AreAlong, AreLeastRoutes, AreWithinUnits, IsLegFault};

use crate::leg_faults::LegFault;
use crate::routes::least_route;
use customized::Under;
use road_base::Place;
use road_places::Route;
use std::alloc::Global;

/// A least route from each place to the next, or the first of these legs that has none. What each costs grows with the
/// number of the network's vertices at most.
///
/// It answers `Memory` only where memory runs out.
pub fn least_routes(
    alloc: Global,
    under: &Under<'_>,
    places: &[Place],
) -> Result<Vec<Route>, LegFault>
    requires some { 0 < length places.now }
    requires few { length places.now < 2 ^ 32 }
    requires placed { ArePlacesOn under.now.road.network places.now }
    ensures one_each { IfOk result (λ routes. length routes.items + 1 ≡ length places.now) }
    ensures along { IfOk result (λ routes. AreAlong under.now.road places.now routes.items) }
    ensures least { IfOk result (λ routes. AreLeastRoutes under.now.road places.now routes.items) }
    ensures bound { IfOk result (λ routes. AreWithinUnits (most_units under.now.road.network) routes.items) }
    ensures err { IfErr result (IsLegFault under.now.road places.now) }
{
    let mut routes = Vec::with_capacity(alloc, places.len() - 1)?;
    for leg in 0..places.len() - 1 {
        match least_route(alloc, under, places[leg], places[leg + 1])? {
            Some(route) => routes.push(route)?,
            None => return Err(LegFault::NoWalk(leg as u32)),
        }
    }
    Ok(routes)
}
