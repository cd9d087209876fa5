//! Points of longitudes and latitudes.

ghost use Rattle.std.specs.Prelude.{◌≡◌, Ok, IfOk, IfErr, length};
ghost use Rattle.road_base.specs.Points.{point_at};
ghost use Rattle.url_read.specs.Coordinates.{points_at};
ghost use Rattle.url_read.specs.Refusals.{IsFaultOf};

use crate::messages::out_of_range;
use crate::refusals::RequestFault;
use road_base::Point;
use std::alloc::Global;

// The points at longitudes and latitudes in microdegrees, or the first that is not on the Earth.
pub(crate) fn points_at(alloc: Global, degrees: &[(i64, i64)]) -> Result<Vec<Point>, RequestFault>
    ensures points { IfOk result (λ points. points_at degrees.now ≡ Ok points.items) }
    ensures count { IfOk result (λ points. length points.items ≡ length degrees.now) }
    ensures refusal { IfErr result (IsFaultOf (points_at degrees.now)) }
{
    let mut points = Vec::new(alloc);
    for pair in degrees {
        let Some(point) = point_of(*pair) else {
            return Err(RequestFault::Refused(out_of_range(alloc, points.len())?));
        };
        points.push(point)?;
    }
    Ok(points)
}

// The point at a longitude and a latitude in whole microdegrees, None where they are not on the Earth.
fn point_of(degrees: (i64, i64)) -> Option<Point>
    ensures { result ≡ point_at degrees.0 degrees.1 }
{
    let (lon, lat) = degrees;
    Point::of(lon, lat)
}
