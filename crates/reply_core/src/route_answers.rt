//! Answers to requests for a route.

ghost use Rattle.std.specs.Prelude.{◌≡◌, ◌^◌, ◌<◌, All, IfOk, IfErr, length, map};
ghost use Rattle.road_places.specs.Places.{ArePlacesOn};
ghost use Rattle.road_walks.specs.Legs.{AreAlong};
ghost use Rattle.snap_index.specs.Ends.{all_ends};
ghost use Rattle.url_read.specs.Request.{IsFitting};
ghost use Rattle.url_read.specs.declared.requests.Service.TheVariants as service;
ghost use Rattle.reply_texts.specs.Replies.{route_reply};
ghost use Rattle.reply_texts.specs.LegLaws.{IsToldInSteps};
ghost use Rattle.reply_texts.specs.RouteLegs.{AreSmall, legs_told};
ghost use Rattle.reply_texts.specs.Waypoints.{waypoints_of};
ghost use Rattle.refusal_texts.specs.declared.reply_codes.Code.TheVariants as code;
ghost use Rattle.reply_core.specs.Answers.{SaysRoute, Tells, status_of};
ghost use Rattle.reply_core.specs.Faults.{IsFoundFault};
ghost use Rattle.reply_core.specs.Lacks.{IsRecent};

use crate::answers::{Answer, Places, Walks};
use crate::asked_places::places_of;
use crate::asked_routes::routes_of;
use crate::lacks::FoundFault;
use customized::Under;
use refusal_texts::Code;
use reply_texts::route_text;
use road_base::{Place, Text};
use road_places::{Route, Walk};
use snap_index::Grid;
use std::alloc::{AllocError, Global};
use std::thread::Threads;
use url_read::{Request, RouteOptions};

// The answer with a least route along each leg, or with one least walk through all places, or the first coordinate that
// has no place, or the first leg that is lacking.
pub(crate) fn route_answer(
    rt: &(impl Threads + Sync),
    alloc: Global,
    under: &Under<'_>,
    number: u32,
    grid: &Grid,
    request: &Request,
    own: &RouteOptions,
) -> Result<Answer, FoundFault>
    requires grid { grid.now ≡ all_ends under.now.road.network.segments }
    requires fitting { IsFitting request.now }
    requires recent { IsRecent number request.now }
    requires service { request.now.service ≡ service.Route own.now }
    ensures says { IfOk result (SaysRoute under.now.road number request.now own.now) }
    ensures status { IfOk result (λ answer. answer.status ≡ status_of answer.code) }
    ensures err { IfErr result (IsFoundFault under.now.road number request.now) }
{
    // a vertex is twice a segment, and fits its type
    let network = under.network();
    prove!(network.segments() < 1 << 30);
    // so few vertices of the searched graph that no route costs too much
    let _few = network.graph();
    let places = places_of(alloc, under, grid, request)?;
    let routes = routes_of(rt, alloc, under, own.continue_straight, &places)?;
    Ok(told(alloc, under, number, request, own, places, routes)?)
}

// The answer with these places and a route along each leg.
fn told(
    alloc: Global,
    under: &Under<'_>,
    number: u32,
    request: &Request,
    own: &RouteOptions,
    places: Vec<Place>,
    routes: Vec<Route>,
) -> Result<Answer, AllocError>
    requires few { length under.now.road.network.segments < 2 ^ 30 }
    requires as_many { length places.items ≡ length request.now.points }
    requires placed { ArePlacesOn under.now.road.network places.items }
    requires along { AreAlong under.now.road places.items routes.items }
    requires legs { length routes.items < 2 ^ 32 }
    requires small { AreSmall routes.items }
    ensures places { IfOk result (λ answer. answer.places ≡ places.items) }
    ensures walks { IfOk result (λ answer. answer.walks ≡ map (λ route. route.walk) routes.items) }
    ensures in_steps { IfOk result (λ answer. All IsToldInSteps (legs_told under.now.road answer.places routes.items)) }
    ensures tells { IfOk result (λ answer. Tells answer code.Ok (route_reply number request.now.skip_waypoints own.now.telling under.now.road.network.profile (legs_told under.now.road places.items routes.items) (waypoints_of under.now.road.network.segments request.now.points places.items))) }
{
    let (network, base) = (under.network(), under.base());
    // by what is known of the turns the steps are proved to add up
    let _turns = network.graph();
    let telling = &own.telling;
    let text = route_text(
        alloc, network, base, number, request, telling, &places, &routes,
    )?;
    let walks = walks_of(alloc, routes)?;
    Ok(Answer {
        code: Code::Ok,
        status: 200,
        places: Places::of(places),
        walks: Walks::of(walks),
        text: Text::of(text),
    })
}

/// The walks of these routes.
pub(crate) fn walks_of(alloc: Global, routes: Vec<Route>) -> Result<Vec<Walk>, AllocError>
    ensures { IfOk result (λ walks. walks.items ≡ map (λ route. route.walk) routes.items) }
{
    let mut walks = Vec::with_capacity(alloc, routes.len())?;
    for route in routes {
        walks.push(route.walk)?;
    }
    Ok(walks)
}
