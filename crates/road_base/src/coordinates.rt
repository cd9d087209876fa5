//! Points on the Earth, in whole microdegrees.

ghost use Rattle.road_base.specs.Earth.{IsOnEarth};

/// A point on the Earth in the coordinates of OpenStreetMap (WGS 84), in whole microdegrees: `lon`
/// within 180 degrees either way, `lat` within 90.
#[derive(Clone, Copy, Debug, PartialEq, Eq, Drop)]
pub struct Point {
    pub lon: i32,
    pub lat: i32,
    pub ghost in_range: { IsOnEarth lon lat },
}
