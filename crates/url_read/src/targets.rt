//! A target to its request.

ghost use Rattle.std.specs.Prelude.{◌≡◌, ◌≤◌, true, Some, Ok, IfOk, IfErr, IfSome, length};
ghost use Rattle.url_read.specs.Options.{options_of};
ghost use Rattle.url_read.specs.Refusals.{IsFaultOf};
ghost use Rattle.url_read.specs.Request.{is_count, most, of_pieces, points_for, request_of, service_named, with_degrees, with_values, name_of_service, AreFew, HasEach, IsFitting};

use crate::coordinates::degrees_in;
use crate::judging::check_options;
use crate::messages::{bad_count, bad_option, bad_path, bad_service, bad_version};
use crate::parting::{characters, decoded, parted};
use crate::pieces::{Pieces, pieces_of, without_json};
use crate::points::points_at;
use crate::refusals::RequestFault;
use crate::requests::{OptionValues, Request, Service};
use crate::service_names::{ServiceName, service_named};
use crate::sizes::{check_size, is_count};
use crate::values::values_for;
use road_base::{Point, Points};
use std::alloc::Global;

/// The request of a target, `/{service}/v1/{profile}/{coordinates}[.json]?{name}={value}&..`, or its first refusal.
///
/// The path ends before the first `?` that has as many `(` as `)` before it; then percent escapes are read in path
/// and query. Coordinates are parted by `;`, each a longitude and a latitude in decimal degrees with a comma
/// between; six digits after the point are kept, and a seventh rounds; or they are `polyline(..)` or `polyline6(..)`,
/// an encoded polyline of 5 or 6 digits. A route has 2 to 500 of them, a table 1 to
/// 100, `nearest` one, a trip 2 to 9, within 180 degrees of longitude and 90 of latitude either way. The profile may
/// be any text.
/// Of an option that is given more than once the last counts, and each is judged.
///
/// Refusals come in this order: `InvalidUrl` with the message `path` for what isn't UTF-8, or a path that isn't
/// four nonempty pieces, each behind a slash; `InvalidService` with `service NAME`; `InvalidVersion` with
/// `version NAME`; `InvalidOptions` with `option format` for coordinates that end in `.flatbuffers`;
/// `InvalidQuery` with `coordinate I`, counted from 0, for the first that isn't of its form (0 for a polyline that
/// doesn't end in `)`), or with `polyline byte N`, counted from the opening parenthesis, for its first fault, then with
/// `N coordinates` for too few, or for `nearest` not one; `InvalidOptions` with `option NAME` for the first option
/// from the left that its service doesn't have or that isn't of its grammar, then for the first of `hints`,
/// `radiuses`, `bearings`, `approaches`, `sources` and `destinations` that has another number of entries than there
/// are coordinates, or a number of a coordinate that isn't there; `InvalidValue` with `coordinate I` for the first
/// out of range; `TooBig` with `N coordinates, at most M`, then with `N results, at most 100`. Want of memory may
/// come at any time.
#[tactic(auto, unfolding(crate::specs::Request::request_of))]
pub fn request(alloc: Global, target: &[u8]) -> Result<Request, RequestFault>
    ensures request { IfOk result (λ request. request_of target.now ≡ Ok request) }
    ensures least { IfOk result (λ request. 1 ≤ length request.points) }
    ensures most { IfOk result (λ request. length request.points ≤ 500) }
    ensures fitting { IfOk result IsFitting }
    ensures refusal { IfErr result (IsFaultOf (request_of target.now)) }
{
    let (path, query) = parted(target);
    let Some(path) = decoded(alloc, path)? else {
        return Err(RequestFault::Refused(bad_path(alloc)?));
    };
    let Some(query) = decoded(alloc, query)? else {
        return Err(RequestFault::Refused(bad_path(alloc)?));
    };
    let Some(pieces) = pieces_of(characters(&path)) else {
        return Err(RequestFault::Refused(bad_path(alloc)?));
    };
    request_of_pieces(alloc, pieces, characters(&query))
}

// The request of the pieces of a path and of a query.
fn request_of_pieces(
    alloc: Global,
    pieces: Pieces<'_>,
    query: &str,
) -> Result<Request, RequestFault>
    ensures request { IfOk result (λ request. of_pieces (Some (record { service = pieces.entry.service.now; version = pieces.entry.version.now; coordinates = pieces.entry.coordinates.now })) query.now ≡ Ok request) }
    ensures fitting { IfOk result IsFitting }
    ensures refusal { IfErr result (IsFaultOf (of_pieces (Some (record { service = pieces.entry.service.now; version = pieces.entry.version.now; coordinates = pieces.entry.coordinates.now })) query.now)) }
{
    let Some(service) = service_named(pieces.service) else {
        return Err(RequestFault::Refused(bad_service(alloc, pieces.service)?));
    };
    if pieces.version != "v1" {
        return Err(RequestFault::Refused(bad_version(alloc, pieces.version)?));
    }
    if pieces.coordinates.as_bytes().ends_with(b".flatbuffers") {
        return Err(RequestFault::Refused(bad_option(alloc, "format")?));
    }
    let degrees = degrees_in(alloc, without_json(pieces.coordinates))?;
    request_at(alloc, service, &degrees, query)
}

// The request of a service at these longitudes and latitudes, with the options of a query.
fn request_at(
    alloc: Global,
    service: ServiceName,
    degrees: &[(i64, i64)],
    query: &str,
) -> Result<Request, RequestFault>
    ensures request { IfOk result (λ request. with_degrees service (options_of query.now) degrees.now ≡ Ok request) }
    ensures fitting { IfOk result IsFitting }
    ensures name { IfOk result (λ request. name_of_service request.service ≡ service) }
    ensures refusal { IfErr result (IsFaultOf (with_degrees service (options_of query.now) degrees.now)) }
{
    let count = degrees.len();
    if !is_count(service, count) {
        return Err(RequestFault::Refused(bad_count(alloc, count)?));
    }
    check_options(alloc, service, query)?;
    let values = values_for(alloc, service, count, query)?;
    request_with(alloc, values, degrees)
}

// The request of these values of options at these longitudes and latitudes, of which there are enough.
fn request_with(
    alloc: Global,
    values: OptionValues,
    degrees: &[(i64, i64)],
) -> Result<Request, RequestFault>
    requires enough { is_count (name_of_service values.service) (length degrees.now) ≡ true }
    requires each { HasEach (length degrees.now) values }
    ensures request { IfOk result (λ request. with_values degrees.now values ≡ Ok request) }
    ensures fitting { IfOk result IsFitting }
    ensures name { IfOk result (λ request. name_of_service request.service ≡ name_of_service values.service) }
    ensures refusal { IfErr result (IsFaultOf (with_values degrees.now values)) }
{
    let points = points_for(alloc, &values.service, degrees)?;
    Ok(Request {
        points: Points::of(points),
        service: values.service,
        radiuses: values.radiuses,
        bearings: values.bearings,
        approaches: values.approaches,
        hints: values.hints,
        generate_hints: values.generate_hints,
        skip_waypoints: values.skip_waypoints,
        snapping: values.snapping,
        since: values.since,
        exclude: values.exclude,
    })
}

// The points at these longitudes and latitudes, of which there are not too many for the service.
fn points_for(
    alloc: Global,
    service: &Service,
    degrees: &[(i64, i64)],
) -> Result<Vec<Point>, RequestFault>
    ensures points { IfOk result (λ points. points_for service.now degrees.now ≡ Ok points.items) }
    ensures count { IfOk result (λ points. length points.items ≡ length degrees.now) }
    ensures most { IfOk result (λ points. length points.items ≤ most (name_of_service service.now)) }
    ensures few { IfOk result (λ points. AreFew service.now) }
    ensures refusal { IfErr result (IsFaultOf (points_for service.now degrees.now)) }
{
    let points = points_at(alloc, degrees)?;
    check_size(alloc, service, points.len())?;
    Ok(points)
}
