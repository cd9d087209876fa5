//! The coordinates of a target.

ghost use Rattle.std.specs.Prelude.{◌≡◌, Ok, IfOk, IfErr};
ghost use Rattle.url_read.specs.Coordinates.{degrees_in, degrees_of, listed_degrees, pair_of};
ghost use Rattle.url_read.specs.Refusals.{IsFaultOf};

use crate::messages::bad_coordinate;
use crate::polylines::polyline_degrees;
use crate::refusals::RequestFault;
use decimal_text::microdegrees;
use option_values::cut;
use std::alloc::Global;

// The longitudes and latitudes of coordinates in whole microdegrees, or the first fault of a polyline, or the first
// coordinate of a list that is not two decimals with a comma between.
pub(crate) fn degrees_in(alloc: Global, coordinates: &str) -> Result<Vec<(i64, i64)>, RequestFault>
    ensures degrees { IfOk result (λ degrees. degrees_in coordinates.now ≡ Ok degrees.items) }
    ensures refusal { IfErr result (IsFaultOf (degrees_in coordinates.now)) }
{
    let bytes = coordinates.as_bytes();
    if let Some(rest) = bytes.strip_prefix(b"polyline(") {
        return polyline_degrees(alloc, 5, rest);
    }
    if let Some(rest) = bytes.strip_prefix(b"polyline6(") {
        return polyline_degrees(alloc, 6, rest);
    }
    listed_degrees(alloc, coordinates)
}

// Those of coordinates that are listed.
fn listed_degrees(alloc: Global, coordinates: &str) -> Result<Vec<(i64, i64)>, RequestFault>
    ensures degrees { IfOk result (λ degrees. listed_degrees coordinates.now ≡ Ok degrees.items) }
    ensures refusal { IfErr result (IsFaultOf (listed_degrees coordinates.now)) }
{
    let mut degrees = Vec::new(alloc);
    for coordinate in coordinates.split(';') {
        let Some(pair) = degrees_of(coordinate) else {
            return Err(RequestFault::Refused(bad_coordinate(alloc, degrees.len())?));
        };
        degrees.push(pair)?;
    }
    Ok(degrees)
}

// The longitude and the latitude of one coordinate, None where it is of another form.
fn degrees_of(coordinate: &str) -> Option<(i64, i64)>
    ensures { result ≡ degrees_of coordinate.now }
{
    let (longitude, latitude) = cut(coordinate, ',')?;
    let lon = microdegrees(longitude.as_bytes())?;
    let lat = microdegrees(latitude.as_bytes())?;
    Some((lon, lat))
}
