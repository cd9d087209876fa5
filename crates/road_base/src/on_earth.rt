//! Which coordinates are a point on the Earth.

ghost use Rattle.std.specs.Prelude.{◌≡◌, ◌↔◌, IsSome, IfSome};
ghost use Rattle.road_base.specs.Earth.{IsOnEarth};
ghost use Rattle.road_base.specs.Points.{point_at};

use crate::coordinates::Point;

/// The widest longitude, in microdegrees either way.
const WIDEST_LONGITUDE: i64 = 180_000_000;

/// The highest latitude, in microdegrees either way.
const HIGHEST_LATITUDE: i64 = 90_000_000;

impl Point {
    /// The point of a longitude and a latitude in microdegrees, or None exactly where one of them is
    /// out of range.
    pub fn of(lon: i64, lat: i64) -> Option<Point>
        ensures range { IsSome result ↔ IsOnEarth lon lat }
        ensures value { IfSome result (λ p. (p.lon ≡ lon) × (p.lat ≡ lat)) }
        ensures point { result ≡ point_at lon lat }
    {
        within_bounds(lon, lat)
    }
}

// The point with these coordinates, where both are within their bounds.
fn within_bounds(lon: i64, lat: i64) -> Option<Point>
    ensures range { IsSome result ↔ IsOnEarth lon lat }
    ensures value { IfSome result (λ p. (p.lon ≡ lon) × (p.lat ≡ lat)) }
{
    if -WIDEST_LONGITUDE <= lon
        && lon <= WIDEST_LONGITUDE
        && -HIGHEST_LATITUDE <= lat
        && lat <= HIGHEST_LATITUDE
    {
        Some(Point {
            lon: lon as i32,
            lat: lat as i32,
        })
    } else {
        None
    }
}
