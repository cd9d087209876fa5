//! Worked targets; expected values are from OSRM's API and this project's rules.

use case_tables::{count, triple};
use std::alloc::{AllocError, Global};
use std::process::Abort;
use url_read::{RequestFault, request};

// Whether a target is refused with the code of this name and with this message.
fn is_told(alloc: Global, target: &[u8], code: &[u8], message: &[u8]) -> Result<bool, AllocError> {
    match request(alloc, target) {
        Err(RequestFault::Refused(refusal)) => {
            let told = format!(in alloc; "{:?}", refusal.code)?;
            Ok(told.as_bytes() == code && refusal.message.as_bytes() == message)
        }
        Err(RequestFault::Memory) => Err(AllocError),
        Ok(_asked) => Ok(false),
    }
}

// Asserts that each target of a table is refused as its row says: the target, the code's name and the message.
pub(crate) fn assert_refused(
    rt: &impl Abort,
    alloc: Global,
    table: &[u8],
) -> Result<(), AllocError> {
    for number in 0..count(table) {
        let (target, code, message) = triple(table, number).expect(rt, "a row of three");
        assert!(rt; is_told(alloc, target, code, message)?, "row {number}");
    }
    Ok(())
}

const REFUSED: &[u8] = b"|InvalidUrl|path$\
route/v1/car/0,0;0,0|InvalidUrl|path$\
/route/v1/car|InvalidUrl|path$\
/route/v1//0,0;0,0|InvalidUrl|path$\
/route/v1/car/0,0;0,0/|InvalidUrl|path$\
/match/v2/car/0,0/x|InvalidUrl|path$\
/a%ff/v1/car/0,0|InvalidUrl|path$\
/match/v1/\xff/0,0|InvalidUrl|path$\
/match/v1/car/0,0?\xff|InvalidUrl|path$\
/match/v1/car/0,0?%e9|InvalidUrl|path$\
/route/v1/car%2f0,0;0,0/x|InvalidUrl|path$\
/rou%74e/v1/car/0%2C0;0,0?%66oo=1|InvalidOptions|option foo$\
/a+b/v1/car/0,0|InvalidService|service a+b$\
/a%2/v1/car/0,0|InvalidService|service a%2$\
/match/v1/car/(?overview=false|InvalidService|service match$\
/match/v1/car/0,0|InvalidService|service match$\
/match/v2/car/0,0|InvalidService|service match$\
/table/v1/car/0,0;0,0?overview=false|InvalidOptions|option overview$\
/nearest/v1/car/0,0?overview=false|InvalidOptions|option overview$\
/Route/v1/car/0,0;0,0?overview=false|InvalidService|service Route$\
/trips/v1/car/0,0;0,0|InvalidService|service trips$\
/trip/v2/car/0,0?foo=1|InvalidVersion|version v2$\
/trip/v1/car/0,0;0,0.flatbuffers|InvalidOptions|option format$\
/trip/v1/car/0,0;x,0|InvalidQuery|coordinate 1$\
/trip/v1/car/0,0?foo=1|InvalidQuery|1 coordinates$\
/trip/v1/car/polyline()|InvalidQuery|0 coordinates$\
/trip/v1/car/0,0;0,0;0,0;0,0;0,0;0,0;0,0;0,0;0,0;0,0|TooBig|10 coordinates, at most 9$\
/trip/v1/car/0,0;0,0;0,0;0,0;0,0;0,0;0,0;0,0;0,0;0,0?source=last|InvalidOptions|option source$\
/trip/v1/car/0,0;0,0;0,0;0,0;0,0;0,0;0,0;0,0;0,0;0,91|InvalidValue|coordinate 9$\
/route/v2/car/0,0;0,0?foo=1|InvalidVersion|version v2$\
/route/v2/car/x.flatbuffers|InvalidVersion|version v2$\
/route/v1/car/0,0;0,0.flatbuffers|InvalidOptions|option format$\
/route/v1/car/.flatbuffers?foo=1|InvalidOptions|option format$\
/route/v1/car/0,0;x,0|InvalidQuery|coordinate 1$\
/route/v1/car/0,0;0,0.json.json?overview=false|InvalidQuery|coordinate 1$\
/route/v1/car/0,0;0,0;?foo=1|InvalidQuery|coordinate 2$\
/route/v1/car/0;x|InvalidQuery|coordinate 0$\
/route/v1/car/0,0,0;0,0|InvalidQuery|coordinate 0$\
/route/v1/car/200,0;0,+1|InvalidQuery|coordinate 1$\
/route/v1/car/polyline(?\"?)?overview=false|InvalidQuery|polyline byte 1$\
/route/v1/car/polyline6(??;0,0|InvalidQuery|coordinate 0$\
/route/v1/car/polyline(??g).json|InvalidQuery|polyline byte 3$\
/route/v1/car/polyline6()|InvalidQuery|0 coordinates$\
/table/v1/car/polyline(????|InvalidQuery|coordinate 0$\
/route/v1/a(b/0,0;0,0?overview=false|InvalidQuery|coordinate 1$\
/route/v1/car/0,0|InvalidQuery|1 coordinates$\
/route/v1/car/200,0?foo=1|InvalidQuery|1 coordinates$\
/route/v1/car/0,0;0,0?radiuses=1|InvalidOptions|option radiuses$\
/route/v1/car/0,0;0,0?since=4294967296|InvalidOptions|option since$\
/route/v1/car/0,0;0,0?overview=false&foo|InvalidOptions|option foo$\
/route/v1/car/0,0;0,0?overview=false&|InvalidOptions|option $\
/route/v1/car/0,0;0,0?overview|InvalidOptions|option overview$\
/route/v1/car/0,0;0,0?overview=full&foo=1|InvalidOptions|option foo$\
/route/v1/car/0,0;0,0?overview=full&hints=a|InvalidOptions|option hints$\
/route/v1/car/0,0;0,0?steps=on&steps=true&overview=false|InvalidOptions|option steps$\
/route/v1/car/0,0;0,0.001?overview=false&bearings=361,10;|InvalidOptions|option bearings$\
/route/v1/car/200,0;0,0?overview=false&foo=1|InvalidOptions|option foo$\
/route/v1/car/0,0;0,0?b=1&a=1&overview=false|InvalidOptions|option b$\
/route/v1/car/0,0;0,0?overview=false=|InvalidOptions|option overview$\
/route/v1/car/0,0;0,0?\xc3\xa9 \"=?|InvalidOptions|option \xc3\xa9 \"$\
/route/v1/car/200,0;0,0|InvalidValue|coordinate 0$\
/route/v1/car/200,0;0,0?overview=false|InvalidValue|coordinate 0$\
/route/v1/car/180,-90;-180,90;0,90.000001?overview=false|InvalidValue|coordinate 2$\
/route/v1/car/0,0;90.5,180?overview=false|InvalidValue|coordinate 1";

#[test]
fn the_first_refusal_of_a_target_is_told(rt: HostRuntime) -> Result<(), AllocError> {
    assert_refused(&rt, rt.alloc(), REFUSED)
}

const NINE: &[u8] = b"/trip/v1/car/0,0;0,0;0,0;0,0;0,0;0,0;0,0;0,0;0,0";

#[test]
fn a_trip_has_nine_coordinates_at_most(rt: HostRuntime) {
    assert_eq!(rt; count_of_points(&rt, rt.alloc(), NINE), 9);
}

// The points of the request of a target.
fn points_told(rt: &impl Abort, alloc: Global, target: &[u8]) -> Result<String, AllocError> {
    match request(alloc, target) {
        Ok(asked) => format!(in alloc; "{:?}", asked.points.as_slice()),
        Err(_fault) => panic!(rt; "a request"),
    }
}

const THREE_POINTS: &[u8] =
    b"/route/v1/a()b/-0.0000015,1;179.5,-2.25;180,-90?overview=false&overview=false";

const THREE_POINTS_TOLD: &str =
    "[Point { lon: -2, lat: 1000000 }, Point { lon: 179500000, lat: -2250000 }, \
    Point { lon: 180000000, lat: -90000000 }]";

#[test]
fn a_request_has_its_points_in_order(rt: HostRuntime) -> Result<(), AllocError> {
    let told = points_told(&rt, rt.alloc(), THREE_POINTS)?;
    assert_eq!(rt; told.as_str(), THREE_POINTS_TOLD);
    Ok(())
}

const POLYLINE: &[u8] = b"/route/v1/car/polyline(??gEgE)?overview=false";

const POLYLINE_6: &[u8] = b"/route/v1/car/polyline6(??o}%40o}@).json";

const POLYLINES_TOLD: &str = "[Point { lon: 0, lat: 0 }, Point { lon: 1000, lat: 1000 }]";

const FAR_POLYLINE: &[u8] = b"/nearest/v1/car/polyline6(agdtjD?)|InvalidValue|coordinate 0";

#[test]
fn a_polyline_has_points_too(rt: HostRuntime) -> Result<(), AllocError> {
    assert_eq!(rt;
        points_told(&rt, rt.alloc(), POLYLINE)?.as_str(),
        POLYLINES_TOLD
    );
    assert_eq!(rt;
        points_told(&rt, rt.alloc(), POLYLINE_6)?.as_str(),
        POLYLINES_TOLD
    );
    assert_refused(&rt, rt.alloc(), FAR_POLYLINE)
}

// A target of so many coordinates, the last of them this one.
fn target_of(alloc: Global, count: usize, last: &[u8]) -> Result<Vec<u8>, AllocError> {
    let mut target = Vec::from_slice(alloc, b"/route/v1/car/")?;
    for _ in 1..count {
        target.extend_from_slice(b"0,0;")?;
    }
    target.extend_from_slice(last)?;
    target.extend_from_slice(b"?overview=false")?;
    Ok(target)
}

// How many points the request of a target has.
fn count_of_points(rt: &impl Abort, alloc: Global, target: &[u8]) -> usize {
    match request(alloc, target) {
        Ok(asked) => asked.points.as_slice().len(),
        Err(_fault) => panic!(rt; "a request"),
    }
}

// Asserts that a target of 500 coordinates has them all.
fn assert_most_taken(rt: &impl Abort, alloc: Global) -> Result<(), AllocError> {
    let target = target_of(alloc, 500, b"0,0")?;
    assert_eq!(rt; count_of_points(rt, alloc, &target), 500);
    Ok(())
}

// Whether a target of 501 coordinates with this last one is refused with the code of this name and with this message.
fn is_told_of_many(
    alloc: Global,
    last: &[u8],
    code: &[u8],
    message: &[u8],
) -> Result<bool, AllocError> {
    let target = target_of(alloc, 501, last)?;
    is_told(alloc, &target, code, message)
}

// Last coordinates, each with the code and the message by which a target of 501 coordinates with this last one is refused.
const MANY: &[u8] = b"0,0|TooBig|501 coordinates, at most 500$\
0,91|InvalidValue|coordinate 500$\
0|InvalidQuery|coordinate 500";

#[test]
fn a_route_has_at_most_500_coordinates(rt: HostRuntime) -> Result<(), AllocError> {
    assert_most_taken(&rt, rt.alloc())?;
    for number in 0..count(MANY) {
        let (last, code, message) = triple(MANY, number).expect(&rt, "a row of three");
        assert!(rt;
            is_told_of_many(rt.alloc(), last, code, message)?,
            "row {number}"
        );
    }
    Ok(())
}
