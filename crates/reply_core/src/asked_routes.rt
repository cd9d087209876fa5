//! The routes of what a request asks for.

ghost use Rattle.std.specs.Prelude.{◌≡◌, ◌+◌, ◌^◌, ◌<◌, ◌≤◌, IfOk, IfErr, length};
ghost use Rattle.road_places.specs.Places.{ArePlacesOn};
ghost use Rattle.road_walks.specs.Least.{most_units};
ghost use Rattle.road_walks.specs.Legs.{AreAlong, AreWithinUnits};
ghost use Rattle.reply_core.specs.Faults.{IsLegFaultBy};
ghost use Rattle.reply_core.specs.RouteAsked.{AreLeastBy};

use customized::Under;
use road_base::Place;
use road_places::Route;
use road_through::least_through;
use road_walks::{LegFault, least_routes};
use std::alloc::Global;
use std::thread::Threads;
use url_read::ContinueStraight;

// A route along each leg between these places: each of them by itself, or all of them as one walk that goes on at each
// place as it came there, as it is asked for; or the first leg that is lacking.
pub(crate) fn routes_of(
    rt: &(impl Threads + Sync),
    alloc: Global,
    under: &Under<'_>,
    straight: ContinueStraight,
    places: &[Place],
) -> Result<Vec<Route>, LegFault>
    requires some { 2 ≤ length places.now }
    requires few { length places.now < 2 ^ 32 }
    requires placed { ArePlacesOn under.now.road.network places.now }
    ensures one_each { IfOk result (λ routes. length routes.items + 1 ≡ length places.now) }
    ensures along { IfOk result (λ routes. AreAlong under.now.road places.now routes.items) }
    ensures least { IfOk result (λ routes. AreLeastBy straight under.now.road places.now routes.items) }
    ensures bound { IfOk result (λ routes. AreWithinUnits (most_units under.now.road.network) routes.items) }
    ensures err { IfErr result (IsLegFaultBy straight under.now.road places.now) }
{
    match straight {
        ContinueStraight::Default | ContinueStraight::Off => least_routes(alloc, under, places),
        ContinueStraight::On => least_through(rt, alloc, under, places),
    }
}
