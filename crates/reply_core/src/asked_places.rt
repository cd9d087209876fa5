//! The places of what a request asks for.

ghost use Rattle.std.specs.Prelude.{◌≡◌, ◌^◌, ◌<◌, Some, IfOk, IfErr, IfSome, MatchOption, length, option_map};
ghost use Rattle.std.specs.List.{AllZip, slice_get};
ghost use Rattle.road_places.specs.Places.{ArePlacesOn, IsPlaceOn};
ghost use Rattle.snap_index.specs.Ends.{all_ends};
ghost use Rattle.reply_core.specs.Asked.{asked_in, filter_of, heading_of};
ghost use Rattle.reply_core.specs.Faults.{IsPlaceFault};
ghost use Rattle.reply_core.specs.Lacks.{LacksPlace, StandsFor};

use crate::lacks::PlaceFault;
use customized::Under;
use road_base::{Place, Point};
use snap_index::{Filter, Grid, Heading, snap};
use std::alloc::Global;
use url_read::{Bearing, Request};

// The places of a request's coordinates, or the first coordinate that has none.
pub(crate) fn places_of(
    alloc: Global,
    under: &Under<'_>,
    grid: &Grid,
    request: &Request,
) -> Result<Vec<Place>, PlaceFault>
    requires grid { grid.now ≡ all_ends under.now.road.network.segments }
    requires few { length request.now.points < 2 ^ 32 }
    requires radiuses { length request.now.radiuses ≡ length request.now.points }
    requires bearings { length request.now.bearings ≡ length request.now.points }
    ensures snapped { IfOk result (λ places. AllZip (StandsFor under.now.road) (asked_in request.now) places.items) }
    ensures placed { IfOk result (λ places. ArePlacesOn under.now.road.network places.items) }
    ensures err { IfErr result (IsPlaceFault under.now.road (asked_in request.now)) }
{
    let count = request.points.as_slice().len();
    let mut places = Vec::with_capacity(alloc, count)?;
    for number in 0..count {
        let (coordinate, filter) = asked_at(request, number);
        match place_of(under, grid, coordinate, filter) {
            Some(place) => places.push(place)?,
            None => return Err(PlaceFault::NoPlace(number as u32)),
        }
    }
    Ok(places)
}

// The place that stands for a coordinate, or None where nothing does.
fn place_of(under: &Under<'_>, grid: &Grid, coordinate: Point, filter: Filter) -> Option<Place>
    requires { grid.now ≡ all_ends under.now.road.network.segments }
    ensures value { MatchOption result (LacksPlace under.now.road (coordinate, filter)) (StandsFor under.now.road (coordinate, filter)) }
    ensures placed { IfSome result (IsPlaceOn under.now.road.network) }
{
    let network = under.network();
    let base = under.base();
    snap(network, grid, base, coordinate, filter)
}

// The coordinate of this number, and its filter.
pub(crate) fn asked_at(request: &Request, number: usize) -> (Point, Filter)
    requires number { number < length request.now.points }
    requires radiuses { length request.now.radiuses ≡ length request.now.points }
    requires bearings { length request.now.bearings ≡ length request.now.points }
    ensures { slice_get (asked_in request.now) number ≡ Some result }
{
    let coordinate = element(request.points.as_slice(), number);
    let radius = element(request.radiuses.as_slice(), number);
    let bearing = element(request.bearings.as_slice(), number);
    (coordinate, filter_of(radius, bearing))
}

// The element of this number.
fn element<T: Copy>(list: &[T], number: usize) -> T
    requires { number < length list.now }
    ensures { slice_get list.now number ≡ Some result }
{
    list[number]
}

// The filter of a radius in decimetres and a bearing.
fn filter_of(radius: Option<u64>, bearing: Option<Bearing>) -> Filter
    ensures { result ≡ filter_of (radius, bearing) }
{
    Filter {
        radius,
        heading: heading_of(bearing),
    }
}

// A bearing as the heading of a filter.
fn heading_of(bearing: Option<Bearing>) -> Option<Heading>
    ensures { result ≡ option_map heading_of bearing }
{
    let Bearing { value, range } = bearing?;
    Some(Heading { value, range })
}
