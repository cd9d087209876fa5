//! What comes of a trip from one point to another.

ghost use Rattle.std.specs.Prelude.{◌≡◌, IfOk, IfSome, MatchOption};
ghost use Rattle.geo_integer.specs.Position.{position_of};
ghost use Rattle.road_places.specs.Places.{IsPlaceOn};
ghost use Rattle.road_walks.specs.Least.{HasNoRoute, IsRouteAnswer};
ghost use Rattle.snap_index.specs.Ends.{all_ends};
ghost use Rattle.town_drill.specs.Trips.{HasNone, IsTrip, StandsAt};

use customized::Under;
use road_base::{Place, Point};
use road_walks::least_route;
use snap_index::{Filter, Grid, snap};
use std::alloc::{AllocError, Global};

/// What comes of a trip.
#[derive(Clone, Copy, Debug, PartialEq, Eq, Drop)]
pub enum Trip {
    /// A route of least weight takes so many deciseconds.
    Arrives(u64),
    /// No permitted walk leads there.
    NoRoute,
    /// One of its two points is near no road that may be used.
    NoPlace,
}

// The place that stands for a point, or None where nothing does.
pub(crate) fn place_at(under: &Under<'_>, grid: &Grid, at: Point) -> Option<Place>
    requires { grid.now ≡ all_ends under.now.road.network.segments }
    ensures value { MatchOption result (HasNone under.now.road (position_of at)) (StandsAt under.now.road (position_of at)) }
    ensures placed { IfSome result (IsPlaceOn under.now.road.network) }
{
    let filter = Filter {
        radius: None,
        heading: None,
    };
    snap(under.network(), grid, under.base(), at, filter)
}

/// What comes of a trip from one point to another. The grid is that of the network. It answers an error only where memory
/// runs out.
pub(crate) fn trip_between(
    alloc: Global,
    under: &Under<'_>,
    grid: &Grid,
    from: Point,
    to: Point,
) -> Result<Trip, AllocError>
    requires { grid.now ≡ all_ends under.now.road.network.segments }
    ensures { IfOk result (IsTrip under.now.road (position_of from) (position_of to)) }
{
    let Some(start) = place_at(under, grid, from) else {
        return Ok(Trip::NoPlace);
    };
    let Some(stop) = place_at(under, grid, to) else {
        return Ok(Trip::NoPlace);
    };
    match least_route(alloc, under, start, stop)? {
        Some(route) => Ok(Trip::Arrives(route.cost.duration)),
        None => Ok(Trip::NoRoute),
    }
}
