//! Trips on roads.

ghost use Rattle.std.specs.Prelude.{◌≡◌, ℕ, ◌+◌, ◌≤◌, Some, IfOk, IfSome, length};
ghost use Rattle.road_places.specs.Places.{ArePlacesOn};
ghost use Rattle.road_walks.specs.Least.{most_units};
ghost use Rattle.road_walks.specs.Legs.{AreAlong, AreLeastRoutes, AreWithinUnits, IsBrokenLeg};
ghost use Rattle.road_trips.specs.Trips.{IsBestThrough, IsBounded, IsTripAnswer, IsTripThrough};

use crate::orders::best_order;
use crate::stops::stops_at;
use customized::Under;
use road_base::Place;
use road_places::Route;
use road_walks::{LegFault, least_routes};
use search_graph::WeightDurLen;
use std::alloc::{AllocError, Global};
use std::thread::Threads;
use trip_query::{Rule, Trip};

/// A trip through places on roads.
pub struct RoadTrip {
    /// the numbers of the places, from 0, in the order in which the trip comes to them, and what all its legs cost
    /// together
    pub best: Trip<WeightDurLen>,
    /// where it stops: at the places in this order, and on a round trip at the first of them again
    pub stops: Vec<Place>,
    /// a least route from each stop to the next
    pub routes: Vec<Route>,
}

impl Drop for RoadTrip {
    fn drop(self) {
        let RoadTrip {
            best: _best,
            stops: _stops,
            routes: _routes,
        } = self;
    }
}

impl RoadTrip {
    /// The routes, from each stop to the next.
    pub fn into_routes(self) -> Vec<Route>
        ensures { result.items ≡ self.routes.items }
    {
        let RoadTrip {
            best: _best,
            stops: _stops,
            routes,
        } = self;
        routes
    }
}

// A least route from each stop to the next, none of which lacks a walk.
fn routes_along(alloc: Global, under: &Under<'_>, stops: &[Place]) -> Result<Vec<Route>, AllocError>
    requires some { 2 ≤ length stops.now }
    requires few { length stops.now ≤ 10 }
    requires placed { ArePlacesOn under.now.road.network stops.now }
    requires whole { (leg : ℕ) → ¬ IsBrokenLeg under.now.road stops.now leg }
    ensures one_each { IfOk result (λ routes. length routes.items + 1 ≡ length stops.now) }
    ensures along { IfOk result (λ routes. AreAlong under.now.road stops.now routes.items) }
    ensures least { IfOk result (λ routes. AreLeastRoutes under.now.road stops.now routes.items) }
    ensures bound { IfOk result (λ routes. AreWithinUnits (most_units under.now.road.network) routes.items) }
{
    match least_routes(alloc, under, stops) {
        Ok(routes) => Ok(routes),
        Err(LegFault::Memory) => Err(AllocError),
        Err(LegFault::NoWalk(_)) => unreachable!(),
    }
}

// The best trip with its stops and routes.
fn trip_along(
    alloc: Global,
    under: &Under<'_>,
    places: &[Place],
    rule: Rule,
    best: Trip<WeightDurLen>,
) -> Result<RoadTrip, AllocError>
    requires some { 2 ≤ length places.now }
    requires few { length places.now ≤ 9 }
    requires placed { ArePlacesOn under.now.road.network places.now }
    requires best { IsBestThrough under.now.road places.now rule (Some best) }
    requires order { length best.order ≡ length places.now }
    ensures trip { IfOk result (IsTripThrough under.now.road places.now rule) }
    ensures bounded { IfOk result (IsBounded under.now.road.network places.now) }
{
    let order = best.order.as_slice();
    let stops = stops_at(alloc, places, rule.roundtrip, order)?;
    // the trip has a cost, so each of its legs has a walk
    let routes = routes_along(alloc, under, &stops)?;
    Ok(RoadTrip {
        best,
        stops,
        routes,
    })
}

/// The best trip through these places: of all orders that the rule admits one whose legs cost the least together, of
/// several the lexicographically first; with a least route along each leg, the way back of a round trip the last of
/// them. It is `None` exactly where each such order has a leg along which no permitted walk leads. A place that stands
/// in the list twice is two places.
///
/// It answers the error only where memory runs out.
pub fn best_trip(
    rt: &(impl Threads + Sync),
    alloc: Global,
    under: &Under<'_>,
    places: &[Place],
    rule: Rule,
) -> Result<Option<RoadTrip>, AllocError>
    requires some { 2 ≤ length places.now }
    requires few { length places.now ≤ 9 }
    requires placed { ArePlacesOn under.now.road.network places.now }
    ensures trip { IfOk result (IsTripAnswer under.now.road places.now rule) }
    ensures bounded { IfOk result (λ answer. IfSome answer (IsBounded under.now.road.network places.now)) }
{
    let found = best_order(rt, alloc, under, places, rule)?;
    match found {
        Some(best) => {
            let trip = trip_along(alloc, under, places, rule, best)?;
            Ok(Some(trip))
        }
        None => Ok(None),
    }
}
