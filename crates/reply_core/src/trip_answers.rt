//! Answers to requests for a trip.

ghost use Rattle.std.specs.Prelude.{◌≡◌, ◌^◌, ◌<◌, IfOk, IfErr, length};
ghost use Rattle.std.specs.List.{AllZip};
ghost use Rattle.road_places.specs.Places.{ArePlacesOn};
ghost use Rattle.road_trips.specs.Trips.{IsBounded, IsTripThrough};
ghost use Rattle.snap_index.specs.Ends.{all_ends};
ghost use Rattle.url_read.specs.Request.{IsFitting};
ghost use Rattle.url_read.specs.declared.requests.Service.TheVariants as service;
ghost use Rattle.reply_texts.specs.RouteLegs.{AreSmall};
ghost use Rattle.reply_core.specs.Answers.{SaysTrip, status_of};
ghost use Rattle.reply_core.specs.Asked.{asked_in};
ghost use Rattle.reply_core.specs.Faults.{IsFoundFault};
ghost use Rattle.reply_core.specs.Lacks.{IsRecent, StandsFor};
ghost use Rattle.reply_core.specs.TripAsked.{rule_of};

use crate::answers::{Answer, Places, Walks};
use crate::asked_places::places_of;
use crate::lacks::FoundFault;
use crate::route_answers::walks_of;
use crate::trip_rules::rule_of;
use customized::Under;
use refusal_texts::{Code, Lack};
use reply_texts::{Tour, trip_text};
use road_base::{Place, Text};
use road_trips::{RoadTrip, best_trip};
use snap_index::Grid;
use std::alloc::{AllocError, Global};
use std::thread::Threads;
use url_read::{Request, TripOptions};

// The answer with the best trip and a least route along each of its legs, or the first coordinate that has no place, or
// that each order of the places lacks a permitted walk along a leg.
pub(crate) fn trip_answer(
    rt: &(impl Threads + Sync),
    alloc: Global,
    under: &Under<'_>,
    number: u32,
    grid: &Grid,
    request: &Request,
    own: &TripOptions,
) -> Result<Answer, FoundFault>
    requires grid { grid.now ≡ all_ends under.now.road.network.segments }
    requires fitting { IsFitting request.now }
    requires recent { IsRecent number request.now }
    requires service { request.now.service ≡ service.Trip own.now }
    ensures says { IfOk result (SaysTrip under.now.road number request.now own.now) }
    ensures status { IfOk result (λ answer. answer.status ≡ status_of answer.code) }
    ensures err { IfErr result (IsFoundFault under.now.road number request.now) }
{
    // a vertex is twice a segment, and fits its type
    let network = under.network();
    prove!(network.segments() < 1 << 30);
    // so few vertices of the searched graph that no route costs too much
    let _few = network.graph();
    let places = places_of(alloc, under, grid, request)?;
    let found = best_trip(rt, alloc, under, &places, rule_of(own))?;
    match found {
        Some(trip) => {
            let answer = told(alloc, under, number, request, own, places, trip)?;
            Ok(answer)
        }
        None => Err(FoundFault::Lacks(Lack::Trips)),
    }
}

// The answer with these places and this trip through them.
fn told(
    alloc: Global,
    under: &Under<'_>,
    number: u32,
    request: &Request,
    own: &TripOptions,
    places: Vec<Place>,
    trip: RoadTrip,
) -> Result<Answer, AllocError>
    requires few { length under.now.road.network.segments < 2 ^ 30 }
    requires as_many { length places.items ≡ length request.now.points }
    requires placed { ArePlacesOn under.now.road.network places.items }
    requires recent { IsRecent number request.now }
    requires snapped { AllZip (StandsFor under.now.road) (asked_in request.now) places.items }
    requires trip { IsTripThrough under.now.road places.items (rule_of own.now) trip }
    requires bounded { IsBounded under.now.road.network places.items trip }
    requires small { AreSmall trip.routes.items }
    ensures says { IfOk result (SaysTrip under.now.road number request.now own.now) }
    ensures status { IfOk result (λ answer. answer.status ≡ status_of answer.code) }
{
    let (network, base) = (under.network(), under.base());
    // by what is known of the turns the steps are proved to add up
    let _turns = network.graph();
    let telling = &own.telling;
    let order = trip.best.order.as_slice();
    let stops = trip.stops.as_slice();
    let routes = trip.routes.as_slice();
    let tour = Tour {
        places: &places,
        order,
        stops,
    };
    let text = trip_text(
        alloc, network, base, number, request, telling, &tour, routes,
    )?;
    let walks = walks_of(alloc, trip.into_routes())?;
    Ok(Answer {
        code: Code::Ok,
        status: 200,
        places: Places::of(places),
        walks: Walks::of(walks),
        text: Text::of(text),
    })
}
