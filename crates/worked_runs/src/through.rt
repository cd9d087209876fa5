//! Routes through several places that go straight on at each of them, worked out by hand, and where none does.

use road_base::Status;
use run_cases::{Case, REPLY, ends, shows};
use std::alloc::{AllocError, Global};
use std::net::{Net, TcpListener, TcpStream};
use std::sync::Wait;
use std::thread::Threads;

const STRAIGHT_ON: &[u8] =
    b"GET /route/v1/car/0,0;0.0005,0.001;0,0?overview=false&continue_straight=true\n";

// Out of the town's first street to the middle of its second one and back, with a turn at the end of the second, before
// its middle or behind it: two walks that cost the same.
const TURNED_BEFORE: &str =
    "\"routes\":[{\"distance\":444.4,\"duration\":59.6,\"weight\":59.6,\"weight_name\":\"duration\",\"legs\":[{\"distance\":277.7,\"duration\":44.7,\"weight\":44.7,\"summary\":\"\",\"steps\":[]},{\"distance\":166.7,\"duration\":14.9,\"weight\":14.9,\"summary\":\"\",\"steps\":[]}]}]";

const TURNED_BEHIND: &str =
    "\"routes\":[{\"distance\":444.4,\"duration\":59.6,\"weight\":59.6,\"weight_name\":\"duration\",\"legs\":[{\"distance\":166.6,\"duration\":14.8,\"weight\":14.8,\"summary\":\"\",\"steps\":[]},{\"distance\":277.8,\"duration\":44.8,\"weight\":44.8,\"summary\":\"\",\"steps\":[]}]}]";

#[test]
fn a_route_goes_straight_on(rt: HostRuntime) -> Result<(), AllocError> {
    let case = Case::over_town(STRAIGHT_ON);
    let before = shows(&rt, rt.alloc(), case, TURNED_BEFORE)?;
    let behind = shows(&rt, rt.alloc(), case, TURNED_BEHIND)?;
    assert!(rt; before || behind);
    Ok(())
}

const EACH_BY_ITSELF: &[u8] = b"GET /route/v1/car/0,0;0.0005,0.001;0,0?overview=false\n";

const THERE_AND_BACK: &str =
    "\"routes\":[{\"distance\":333.3,\"duration\":29.7,\"weight\":29.7,\"weight_name\":\"duration\",\"legs\":[{\"distance\":166.6,\"duration\":14.8,\"weight\":14.8,\"summary\":\"\",\"steps\":[]},{\"distance\":166.7,\"duration\":14.9,\"weight\":14.9,\"summary\":\"\",\"steps\":[]}]}]";

#[test]
fn without_it_a_route_goes_back_the_way_it_came(rt: HostRuntime) -> Result<(), AllocError> {
    let case = Case::over_town(EACH_BY_ITSELF);
    assert!(rt; shows(&rt, rt.alloc(), case, THERE_AND_BACK)?);
    Ok(())
}

// To the end of the second street and back: there it may turn round, at a cost, as anywhere on its way.
const TO_THE_END: &[u8] =
    b"GET /route/v1/car/0,0;0.001,0.001;0,0?overview=false&continue_straight=true\n";

#[test]
fn a_place_at_a_dead_end_is_turned_round_at_at_a_cost(rt: HostRuntime) -> Result<(), AllocError> {
    let case = Case::over_town(TO_THE_END);
    let expected = "\"routes\":[{\"distance\":444.4,\"duration\":59.6,";
    assert!(rt; shows(&rt, rt.alloc(), case, expected)?);
    Ok(())
}

const ONE_LEG: &[u8] = b"GET /route/v1/car/0,0;0.001,0.001?overview=false&continue_straight=true\n";

#[test]
fn one_leg_is_the_least_route(rt: HostRuntime) -> Result<(), AllocError> {
    let case = Case::over_town(ONE_LEG);
    assert!(rt; ends(&rt, rt.alloc(), case, Status::Ok, REPLY.as_bytes())?);
    Ok(())
}

// A street between two nodes. At its second one it goes on into a lane that is driven one way and ends; at its first one
// a lane leads into it and another one out of it. So who comes to its middle can't come back to the first node, though
// one who begins there can.
const STREET_OF_NO_RETURN: &[u8] =
    b"n1 x0 y0\nn2 x0.001 y0\nn3 x0.002 y0\nn4 x0.003 y0\nn5 x0.001 y0.001\nw1 Thighway=residential,oneway=yes Nn1,n2\nw2 Thighway=residential Nn2,n3\nw3 Thighway=residential,oneway=yes Nn3,n4\nw4 Thighway=residential,oneway=yes Nn2,n5\n";

// Lines, each with what their reply has in it: both legs by themselves; the walk through all places that is lacking; one as
// far as the lane's end; and a first leg that is lacking.
const THROUGH_THE_STREET: &str =
    "GET /route/v1/car/0,0;0.0015,0;0.001,0.001?overview=false\n|\"routes\":[{\"distance\":333.3,\"duration\":29.7,$\
GET /route/v1/car/0,0;0.0015,0;0.001,0.001?continue_straight=default&overview=false\n|\"routes\":[{\"distance\":333.3,\"duration\":29.7,$\
GET /route/v1/car/0,0;0.0015,0;0.001,0.001?continue_straight=true&overview=false\n|{\"code\":\"NoRoute\",\"data_version\":\"0\",\"message\":\"leg 1\"}$\
GET /route/v1/car/0,0;0.0015,0;0.003,0?continue_straight=true&overview=false\n|\"routes\":[{\"distance\":333.3,\"duration\":29.7,$\
GET /route/v1/car/0.001,0.001;0,0;0.0015,0?continue_straight=true&overview=false\n|{\"code\":\"NoRoute\",\"data_version\":\"0\",\"message\":\"leg 0\"}";

// Whether the reply of a row has its text in it.
fn street_shows(
    rt: &(impl Threads + Wait + Net<Listener = TcpListener, Stream = TcpStream> + Sync),
    alloc: Global,
    line: &str,
    expected: &str,
) -> Result<bool, AllocError> {
    let case = Case {
        map: STREET_OF_NO_RETURN,
        ..Case::over_town(line.as_bytes())
    };
    shows(rt, alloc, case, expected)
}

#[test]
fn no_walk_leads_through_where_each_leg_has_one(rt: HostRuntime) -> Result<(), AllocError> {
    for row in THROUGH_THE_STREET.split('$') {
        let (line, expected) = row.split_once('|').expect(&rt, "a row of two");
        assert!(rt; street_shows(&rt, rt.alloc(), line, expected)?, "{row}");
    }
    Ok(())
}
