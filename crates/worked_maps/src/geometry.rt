//! Worked values; each was worked out by hand from the formulas.

use geo_integer::{bearing, cosine, distance, length, modifier, plane, point_at, project};
use road_base::{Modifier, Point};

// The point of a longitude and a latitude, or the point (0, 0) where they are out of range.
fn point(lon: i64, lat: i64) -> Point {
    match Point::of(lon, lat) {
        Some(point) => point,
        None => Point { lon: 0, lat: 0 },
    }
}

#[test]
fn lengths_are_those_of_the_formulas(rt: HostRuntime) {
    let origin = point(0, 0);
    // A thousandth of a degree is 1111.95 decimetres at the equator, rounded down.
    let (north, east) = (point(0, 1000), point(1000, 0));
    assert_eq!(rt; (length(origin, north), length(origin, east)), (1111, 1111));
    // At 60 degrees a degree of longitude is half as long.
    let (a, b) = (point(0, 60_000_000), point(1000, 60_000_000));
    assert_eq!(rt;
        (
            distance(a, b),
            distance(origin, origin),
            length(origin, origin)
        ),
        (555, 0, 1)
    );
}

#[test]
fn planes_are_those_of_the_formulas(rt: HostRuntime) {
    assert_eq!(rt;
        (
            cosine(0),
            cosine(-60_000_000),
            cosine(90_000_000),
            plane(-3, 4, 65536)
        ),
        (65536, 32768, 0, 107374182400)
    );
}

#[test]
fn places_are_the_nearest(rt: HostRuntime) {
    let (a, b) = (point(0, 0), point(1000, 0));
    let cases = [
        (-5, 3, 0),
        (0, 0, 0),
        (250, 7, 256),
        (500, -9, 512),
        (1000, 0, 1024),
        (4000, 1, 1024),
    ];
    for (lon, lat, want) in cases {
        assert_eq!(rt; project(point(lon, lat), a, b), want, "at {lon}");
    }
    assert_eq!(rt; project(b, a, a), 0);
}

#[test]
fn places_have_their_points(rt: HostRuntime) {
    let (a, b) = (point(0, 0), point(1000, 0));
    let middle = point_at(a, b, 512);
    let back = point_at(b, point(997, -3), 512);
    assert_eq!(rt;
        (middle.lon, middle.lat, back.lon, back.lat),
        (500, 0, 999, -1)
    );
}

#[test]
fn bearings_go_clockwise_from_north(rt: HostRuntime) {
    let origin = point(0, 0);
    let cases = [
        (0, 0, 0),
        (0, 10, 0),
        (10, 10, 45),
        (10, 0, 90),
        (10, -10, 135),
        (0, -10, 180),
        (-10, -10, 225),
        (-10, 0, 270),
        (-10, 10, 315),
        (-1, 1000, 0),
        // Between the axes and the diagonals the curve of the approximation decides.
        (1, 5, 12),
        (1, 3, 18),
        (5, -1, 102),
        (-5, -1, 258),
    ];
    for (lon, lat, want) in cases {
        assert_eq!(rt; bearing(origin, point(lon, lat)), want, "at {lon}, {lat}");
    }
    // At 60 degrees twice the difference of longitude is as far as one of latitude.
    assert_eq!(rt; bearing(point(0, 60_000_000), point(20, 60_000_010)), 45);
}

#[test]
fn turns_bend_by_the_change_of_bearing(rt: HostRuntime) {
    let cases = [
        (90, 90, Modifier::Straight),
        (350, 10, Modifier::Straight),
        (0, 21, Modifier::SlightRight),
        (0, 40, Modifier::SlightRight),
        (0, 41, Modifier::Right),
        (0, 120, Modifier::Right),
        (0, 121, Modifier::SharpRight),
        (0, 179, Modifier::SharpRight),
        (10, 190, Modifier::Uturn),
        (0, 181, Modifier::SharpLeft),
        (0, 239, Modifier::SharpLeft),
        (0, 240, Modifier::Left),
        (0, 319, Modifier::Left),
        (0, 320, Modifier::SlightLeft),
        (0, 339, Modifier::SlightLeft),
        (0, 340, Modifier::Straight),
    ];
    for (before, after, want) in cases {
        let bend = modifier(before % 360, after % 360, false);
        assert!(rt; bend == want, "from {before} to {after}");
    }
    assert!(rt; modifier(0, 90, true) == Modifier::Uturn);
}
