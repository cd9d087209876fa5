//! Worked options; expected values are from OSRM's API and this project's rules.

use crate::targets::assert_refused;
use case_tables::{count, row};
use std::alloc::{AllocError, Global};
use std::process::Abort;
use url_read::request;

const REFUSED: &[u8] = b"/nearest/v1/car/0,0;0,0?foo=1|InvalidQuery|2 coordinates$\
/nearest/v1/car/0,0?number=0|InvalidOptions|option number$\
/nearest/v1/car/0,0?number=101|TooBig|101 results, at most 100$\
/nearest/v1/car/0,91?number=101|InvalidValue|coordinate 0$\
/nearest/v1/car/0,0?steps=true|InvalidOptions|option steps$\
/route/v1/car/0,0;0,0?number=1|InvalidOptions|option number$\
/route/v1/car/0,0;0,0?sources=all|InvalidOptions|option sources$\
/route/v1/car/0,0;0,0?roundtrip=true|InvalidOptions|option roundtrip$\
/table/v1/car/0,0;0,0?source=first|InvalidOptions|option source$\
/table/v1/car/0,0;0,0?destination=last|InvalidOptions|option destination$\
/trip/v1/car/0,0;0,0?sources=all|InvalidOptions|option sources$\
/trip/v1/car/0,0;0,0?destinations=all|InvalidOptions|option destinations$\
/trip/v1/car/0,0;0,0?alternatives=false|InvalidOptions|option alternatives$\
/trip/v1/car/0,0;0,0?continue_straight=default|InvalidOptions|option continue_straight$\
/trip/v1/car/0,0;0,0?number=1|InvalidOptions|option number$\
/trip/v1/car/0,0;0,0?source=last&source=first|InvalidOptions|option source$\
/trip/v1/car/0,0;0,0?source=any&radiuses=1|InvalidOptions|option radiuses$\
/table/v1/car/0,0;0,0?overview=false|InvalidOptions|option overview$\
/table/v1/car/0,0;0,0?annotations=nodes|InvalidOptions|option annotations$\
/table/v1/car/0,0;0,0?sources=2|InvalidOptions|option sources$\
/table/v1/car/0,0;0,0?destinations=0;2&foo=1|InvalidOptions|option foo$\
/table/v1/car/0,0;0,0?destinations=2&sources=2|InvalidOptions|option sources$\
/table/v1/car/0,0?sources=1&radiuses=;|InvalidOptions|option radiuses$\
/table/v1/car/0,0?radiuses=;&hints=;|InvalidOptions|option hints$\
/table/v1/car/0,0?approaches=;&bearings=;|InvalidOptions|option bearings$\
/table/v1/car/0,0?sources=1&approaches=;|InvalidOptions|option approaches$\
/table/v1/car/0,0?destinations=0;1&sources=|InvalidOptions|option sources$\
/table/v1/car/0,0?sources=0;1&destinations=|InvalidOptions|option destinations$\
/route/v1/car/0,0;0,0?radiuses=5;5&radiuses=5|InvalidOptions|option radiuses$\
/route/v1/car/0,0;0,0?radiuses=-5;5&radiuses=5;5|InvalidOptions|option radiuses$\
/route/v1/car/0,0;0,0?overview=false&Overview=false|InvalidOptions|option Overview$\
/route/v1/car/0,0;0,0?exclude=toll,,ferry&foo=1|InvalidOptions|option exclude$\
/table/v1/car/0,0;0,0?exclude=&exclude=toll|InvalidOptions|option exclude$\
/trip/v1/car/0,0;0,0?exclude|InvalidOptions|option exclude$\
/nearest/v1/car/0,91?exclude=toll|InvalidValue|coordinate 0";

#[test]
fn a_target_of_any_service_has_its_first_refusal(rt: HostRuntime) -> Result<(), AllocError> {
    assert_refused(&rt, rt.alloc(), REFUSED)
}

const TAKEN: &[u8] = b"/route/v1/car/0,0;0,1?radiuses=;$\
/route/v1/car/0,0;0,1?radiuses=unlimited;0$\
/route/v1/car/0,0;0,1?radiuses=007.25;99999999999999999999$\
/route/v1/car/0,0;0,1?bearings=;$\
/route/v1/car/0,0;0,1?bearings=360,180;000,0$\
/route/v1/car/0,0;0,1?approaches=;unrestricted$\
/route/v1/car/0,0;0,1?hints=;$\
/route/v1/car/0,0;0,1?hints=a=b;%3D$\
/route/v1/car/0,0;0,1?generate_hints=true$\
/route/v1/car/0,0;0,1?skip_waypoints=false$\
/route/v1/car/0,0;0,1?snapping=default$\
/route/v1/car/0,0;0,1?since=4294967295$\
/route/v1/car/0,0;0,1?since=00000000001$\
/route/v1/car/0,0;0,1?exclude=toll$\
/table/v1/car/0,0;0,1?exclude=toll,ferry,toll$\
/trip/v1/car/0,0;0,1?exclude=%2F%20=;%c3%a4$\
/nearest/v1/car/0,0?exclude=Toll$\
/route/v1/car/0,0;0,1?alternatives=true$\
/route/v1/car/0,0;0,1?alternatives=999999999$\
/route/v1/car/0,0;0,1?steps=true$\
/route/v1/car/0%2C0;0,1?o%76erview=f%61lse&radiuses=5;&bearings=45,10;&since=9$\
/table/v1/car/polyline(????)$\
/route/v1/car/0,0;0,1?annotations=true$\
/route/v1/car/0,0;0,1?annotations=nodes,distance,duration,weight,nodes$\
/route/v1/car/0,0;0,1?geometries=polyline6$\
/route/v1/car/0,0;0,1?overview=simplified$\
/route/v1/car/0,0;0,1?continue_straight=default$\
/route/v1/car/0,0;0,1?continue_straight=true$\
/table/v1/car/0,0;0,1?sources=all$\
/table/v1/car/0,0;0,1?sources=1;0;1$\
/table/v1/car/0,0;0,1?destinations=000000001$\
/table/v1/car/0,0;0,1?annotations=duration$\
/table/v1/car/0,0;0,1?annotations=distance,duration$\
/trip/v1/car/0,0;0,1?steps=true$\
/trip/v1/car/0,0;0,1?annotations=nodes,speed$\
/trip/v1/car/0,0;0,1?geometries=geojson$\
/trip/v1/car/0,0;0,1?overview=false$\
/trip/v1/car/0,0;0,1?roundtrip=true$\
/trip/v1/car/0,0;0,1?roundtrip=false&source=any&destination=any$\
/trip/v1/car/0,0;0,1?source=first&destination=last&since=9$\
/nearest/v1/car/0,0?number=100$\
/nearest/v1/car/0,0?number=000000001$\
/nearest/v1/car/0,0?radiuses=$\
/nearest/v1/car/0,0?bearings=";

// Whether a target makes a request.
fn is_taken(alloc: Global, target: &[u8]) -> bool {
    match request(alloc, target) {
        Ok(_asked) => true,
        Err(_fault) => false,
    }
}

#[test]
fn each_option_has_its_values(rt: HostRuntime) {
    for number in 0..count(TAKEN) {
        assert!(rt;
            is_taken(rt.alloc(), row(TAKEN, number).expect(&rt, "a row")),
            "row {number}"
        );
    }
}

const OF_ANOTHER_FORM: &[u8] = b"/route/v1/car/0,0;0,1?radiuses=|InvalidOptions|option radiuses$\
/route/v1/car/0,0;0,1?radiuses=;;|InvalidOptions|option radiuses$\
/route/v1/car/0,0;0,1?radiuses=-1;|InvalidOptions|option radiuses$\
/route/v1/car/0,0;0,1?radiuses=+1;|InvalidOptions|option radiuses$\
/route/v1/car/0,0;0,1?radiuses=1.;|InvalidOptions|option radiuses$\
/route/v1/car/0,0;0,1?radiuses=.5;|InvalidOptions|option radiuses$\
/route/v1/car/0,0;0,1?radiuses=1e5;|InvalidOptions|option radiuses$\
/route/v1/car/0,0;0,1?radiuses=Unlimited;|InvalidOptions|option radiuses$\
/route/v1/car/0,0;0,1?bearings=361,10;|InvalidOptions|option bearings$\
/route/v1/car/0,0;0,1?bearings=45,181;|InvalidOptions|option bearings$\
/route/v1/car/0,0;0,1?bearings=45;|InvalidOptions|option bearings$\
/route/v1/car/0,0;0,1?bearings=45,;|InvalidOptions|option bearings$\
/route/v1/car/0,0;0,1?bearings=,10;|InvalidOptions|option bearings$\
/route/v1/car/0,0;0,1?bearings=4.5,10;|InvalidOptions|option bearings$\
/route/v1/car/0,0;0,1?bearings=1,2,3;|InvalidOptions|option bearings$\
/route/v1/car/0,0;0,1?bearings=45,10|InvalidOptions|option bearings$\
/route/v1/car/0,0;0,1?approaches=curb;|InvalidOptions|option approaches$\
/route/v1/car/0,0;0,1?hints=a|InvalidOptions|option hints$\
/route/v1/car/0,0;0,1?generate_hints=1|InvalidOptions|option generate_hints$\
/route/v1/car/0,0;0,1?skip_waypoints=|InvalidOptions|option skip_waypoints$\
/route/v1/car/0,0;0,1?snapping=any|InvalidOptions|option snapping$\
/route/v1/car/0,0;0,1?since=4294967296|InvalidOptions|option since$\
/route/v1/car/0,0;0,1?since=|InvalidOptions|option since$\
/route/v1/car/0,0;0,1?since=+1|InvalidOptions|option since$\
/route/v1/car/0,0;0,1?exclude=|InvalidOptions|option exclude$\
/table/v1/car/0,0;0,1?exclude=,|InvalidOptions|option exclude$\
/trip/v1/car/0,0;0,1?exclude=toll,|InvalidOptions|option exclude$\
/nearest/v1/car/0,0?exclude=,toll|InvalidOptions|option exclude$\
/route/v1/car/0,0;0,1?alternatives=1000000000|InvalidOptions|option alternatives$\
/route/v1/car/0,0;0,1?steps=1|InvalidOptions|option steps$\
/route/v1/car/0,0;0,1?annotations=|InvalidOptions|option annotations$\
/route/v1/car/0,0;0,1?annotations=nodes,|InvalidOptions|option annotations$\
/route/v1/car/0,0;0,1?annotations=true,nodes|InvalidOptions|option annotations$\
/route/v1/car/0,0;0,1?geometries=polyline5|InvalidOptions|option geometries$\
/route/v1/car/0,0;0,1?overview=true|InvalidOptions|option overview$\
/route/v1/car/0,0;0,1?continue_straight=True|InvalidOptions|option continue_straight$\
/trip/v1/car/0,0;0,1?roundtrip=|InvalidOptions|option roundtrip$\
/trip/v1/car/0,0;0,1?roundtrip=no|InvalidOptions|option roundtrip$\
/trip/v1/car/0,0;0,1?source=|InvalidOptions|option source$\
/trip/v1/car/0,0;0,1?source=last|InvalidOptions|option source$\
/trip/v1/car/0,0;0,1?source=0|InvalidOptions|option source$\
/trip/v1/car/0,0;0,1?destination=|InvalidOptions|option destination$\
/trip/v1/car/0,0;0,1?destination=first|InvalidOptions|option destination$\
/trip/v1/car/0,0;0,1?destination=Last|InvalidOptions|option destination$\
/trip/v1/car/0,0;0,1?overview=true|InvalidOptions|option overview$\
/table/v1/car/0,0;0,1?sources=2|InvalidOptions|option sources$\
/table/v1/car/0,0;0,1?sources=0;|InvalidOptions|option sources$\
/table/v1/car/0,0;0,1?sources=all;0|InvalidOptions|option sources$\
/table/v1/car/0,0;0,1?sources=0000000000|InvalidOptions|option sources$\
/table/v1/car/0,0;0,1?destinations=any|InvalidOptions|option destinations$\
/table/v1/car/0,0;0,1?annotations=duration,duration|InvalidOptions|option annotations$\
/table/v1/car/0,0;0,1?annotations=speed|InvalidOptions|option annotations$\
/nearest/v1/car/0,0?number=000|InvalidOptions|option number$\
/nearest/v1/car/0,0?number=0000000001|InvalidOptions|option number$\
/nearest/v1/car/0,0?number=|InvalidOptions|option number$\
/nearest/v1/car/0,0?number=1000000000|InvalidOptions|option number";

#[test]
fn a_value_of_another_form_is_refused(rt: HostRuntime) -> Result<(), AllocError> {
    assert_refused(&rt, rt.alloc(), OF_ANOTHER_FORM)
}

// The values of the request of a target.
fn asked_told(rt: &impl Abort, alloc: Global, target: &[u8]) -> Result<String, AllocError> {
    match request(alloc, target) {
        Ok(asked) => format!(in alloc; "{asked:?}"),
        Err(_fault) => panic!(rt; "a request"),
    }
}

const MOST_OPTIONS: &[u8] =
    b"/route/v1/car/0,0;0,1.json?overview=false&alternatives=2&steps=true&annotations=nodes,speed\
    &geometries=geojson&continue_straight=false&radiuses=1;1&radiuses=53687091.19;12.39&bearings=45,10;\
    &approaches=;unrestricted&hints=a+b;%41&generate_hints=false&skip_waypoints=true&exclude=motorway&since=7\
    &overview=full&exclude=toll,a%20ferry,toll";

const MOST_OPTIONS_ASKED: &str = "Request { \
    points: Points { inner: [Point { lon: 0, lat: 0 }, Point { lon: 0, lat: 1000000 }] }, \
    service: Route(RouteOptions { \
    alternatives: UpTo(2), \
    telling: Telling { \
    steps: true, \
    annotations: RouteAnnotations { distance: false, duration: false, weight: false, nodes: true, speed: true }, \
    geometries: Geojson, \
    overview: Full }, \
    continue_straight: Off }), \
    radiuses: Radiuses { inner: [Some(536870911), Some(123)] }, \
    bearings: Bearings { inner: [Some(Bearing { value: 45, range: 10 }), None] }, \
    approaches: Approaches { inner: [None, Some(Unrestricted)] }, \
    hints: Hints { inner: [Text { inner: \"a+b\" }, Text { inner: \"A\" }] }, \
    generate_hints: false, \
    skip_waypoints: true, \
    snapping: Default, \
    since: 7, \
    exclude: Some(Words { inner: [Text { inner: \"toll\" }, Text { inner: \"a ferry\" }, Text { inner: \"toll\" }] }) }";

#[test]
fn a_route_has_the_last_value_of_each_option(rt: HostRuntime) -> Result<(), AllocError> {
    assert_eq!(rt;
        asked_told(&rt, rt.alloc(), MOST_OPTIONS)?.as_str(),
        MOST_OPTIONS_ASKED
    );
    Ok(())
}

const NO_OPTIONS: &[u8] = b"/route/v1/car/0,0;0,1";

const NO_OPTIONS_ASKED: &str = "Request { \
    points: Points { inner: [Point { lon: 0, lat: 0 }, Point { lon: 0, lat: 1000000 }] }, \
    service: Route(RouteOptions { \
    alternatives: Off, \
    telling: Telling { \
    steps: false, \
    annotations: RouteAnnotations { distance: false, duration: false, weight: false, nodes: false, speed: false }, \
    geometries: Polyline, \
    overview: Simplified }, \
    continue_straight: Default }), \
    radiuses: Radiuses { inner: [None, None] }, \
    bearings: Bearings { inner: [None, None] }, \
    approaches: Approaches { inner: [None, None] }, \
    hints: Hints { inner: [Text { inner: \"\" }, Text { inner: \"\" }] }, \
    generate_hints: true, \
    skip_waypoints: false, \
    snapping: Default, \
    since: 0, \
    exclude: None }";

#[test]
fn an_option_that_is_not_given_has_its_default(rt: HostRuntime) -> Result<(), AllocError> {
    assert_eq!(rt;
        asked_told(&rt, rt.alloc(), NO_OPTIONS)?.as_str(),
        NO_OPTIONS_ASKED
    );
    Ok(())
}

// The values of its own that the service of a target has.
fn own_told(rt: &impl Abort, alloc: Global, target: &[u8]) -> Result<String, AllocError> {
    match request(alloc, target) {
        Ok(asked) => format!(in alloc; "{:?}", asked.service),
        Err(_fault) => panic!(rt; "a request"),
    }
}

const TABLE: &[u8] = b"/table/v1/car/0,0;0,1?sources=1;0;1&annotations=distance";

const TABLE_ASKED: &str =
    "Table(TableOptions { sources: Only(Indexes { inner: [1, 0, 1] }), destinations: All, \
    annotations: TableAnnotations { duration: false, distance: true } })";

#[test]
fn a_table_has_options_of_its_own(rt: HostRuntime) -> Result<(), AllocError> {
    assert_eq!(rt; own_told(&rt, rt.alloc(), TABLE)?.as_str(), TABLE_ASKED);
    Ok(())
}

const NEAREST: &[u8] = b"/nearest/v1/car/0,0?number=3&number=099";

const NEAREST_ASKED: &str = "Nearest(NearestOptions { number: 99 })";

#[test]
fn a_nearest_has_a_number(rt: HostRuntime) -> Result<(), AllocError> {
    assert_eq!(rt; own_told(&rt, rt.alloc(), NEAREST)?.as_str(), NEAREST_ASKED);
    Ok(())
}

const TRIP: &[u8] =
    b"/trip/v1/car/0,0;0,1;1,0?roundtrip=false&source=any&source=first&destination=last&steps=true&overview=full";

const TRIP_ASKED: &str = "Trip(TripOptions { telling: Telling { steps: true, \
    annotations: RouteAnnotations { distance: false, duration: false, weight: false, nodes: false, speed: false }, \
    geometries: Polyline, overview: Full }, roundtrip: false, source: First, destination: Last })";

const TRIP_ALONE: &[u8] = b"/trip/v1/car/0,0;0,1";

const TRIP_ALONE_ASKED: &str = "Trip(TripOptions { telling: Telling { steps: false, \
    annotations: RouteAnnotations { distance: false, duration: false, weight: false, nodes: false, speed: false }, \
    geometries: Polyline, overview: Simplified }, roundtrip: true, source: Any, destination: Any })";

#[test]
fn a_trip_has_two_ends_and_may_go_round(rt: HostRuntime) -> Result<(), AllocError> {
    assert_eq!(rt; own_told(&rt, rt.alloc(), TRIP)?.as_str(), TRIP_ASKED);
    assert_eq!(rt;
        own_told(&rt, rt.alloc(), TRIP_ALONE)?.as_str(),
        TRIP_ALONE_ASKED
    );
    Ok(())
}
