//! Routes, tables and trips under turn restrictions over via ways, worked out by hand, which of these apply, and how many
//! there may be.

use road_base::Status;
use run_cases::{Case, LINE, ends, repeated, shows};
use std::alloc::{AllocError, Global};
use std::net::{Net, TcpListener, TcpStream};
use std::sync::Wait;
use std::thread::Threads;

// A street, a second one behind it, and at the end of that a fork: straight on, and to the left into a dead end.
const FORK: &[u8] =
    b"n1 x0 y0\nn2 x0.001 y0\nn3 x0.002 y0\nn4 x0.003 y0\nn5 x0.002 y0.001\nw1 Thighway=residential Nn1,n2\nw2 Thighway=residential Nn2,n3\nw3 Thighway=residential Nn3,n4\nw4 Thighway=residential Nn3,n5\n";

// Who comes from the first street along the second one may not go straight on.
const NOT_STRAIGHT_ON: &[u8] =
    b"r1 Ttype=restriction,restriction=no_straight_on Mw1@from,w2@via,w3@to\n";

// The fork with these relations.
fn fork_with(alloc: Global, relations: &[u8]) -> Result<Vec<u8>, AllocError> {
    repeated(alloc, FORK, relations, 1)
}

// Whether a run on lines over the fork with these relations is done, and puts this.
fn fork_ends(
    rt: &(impl Threads + Wait + Net<Listener = TcpListener, Stream = TcpStream> + Sync),
    alloc: Global,
    relations: &[u8],
    line: &[u8],
    output: &[u8],
) -> Result<bool, AllocError> {
    let map = fork_with(alloc, relations)?;
    let case = Case {
        map: map.as_slice(),
        ..Case::over_town(line)
    };
    ends(rt, alloc, case, Status::Ok, output)
}

// Whether such a run puts what has this text in it.
fn fork_shows(
    rt: &(impl Threads + Wait + Net<Listener = TcpListener, Stream = TcpStream> + Sync),
    alloc: Global,
    relations: &[u8],
    line: &str,
    expected: &str,
) -> Result<bool, AllocError> {
    let map = fork_with(alloc, relations)?;
    let case = Case {
        map: map.as_slice(),
        ..Case::over_town(line.as_bytes())
    };
    shows(rt, alloc, case, expected)
}

const TO_THE_END: &[u8] = b"GET /route/v1/car/0,0;0.003,0?overview=false\n";

const STRAIGHT_ON: &[u8] =
    b"{\"code\":\"Ok\",\"data_version\":\"0\",\"routes\":[{\"distance\":333.3,\"duration\":29.7,\"weight\":29.7,\"weight_name\":\"duration\",\"legs\":[{\"distance\":333.3,\"duration\":29.7,\"weight\":29.7,\"summary\":\"\",\"steps\":[]}]}],\"waypoints\":[{\"distance\":0.0,\"name\":\"\",\"location\":[0.000000,0.000000]},{\"distance\":0.0,\"name\":\"\",\"location\":[0.003000,0.000000]}]}\n";

// Into the dead end, back there for 20 seconds, and then on.
const BY_THE_DEAD_END: &[u8] =
    b"{\"code\":\"Ok\",\"data_version\":\"0\",\"routes\":[{\"distance\":555.5,\"duration\":69.5,\"weight\":69.5,\"weight_name\":\"duration\",\"legs\":[{\"distance\":555.5,\"duration\":69.5,\"weight\":69.5,\"summary\":\"\",\"steps\":[]}]}],\"waypoints\":[{\"distance\":0.0,\"name\":\"\",\"location\":[0.000000,0.000000]},{\"distance\":0.0,\"name\":\"\",\"location\":[0.003000,0.000000]}]}\n";

#[test]
fn who_comes_along_the_via_way_goes_round(rt: HostRuntime) -> Result<(), AllocError> {
    let alloc = rt.alloc();
    assert!(rt; fork_ends(&rt, alloc, b"", TO_THE_END, STRAIGHT_ON)?);
    assert!(rt; fork_ends(&rt, alloc, NOT_STRAIGHT_ON, TO_THE_END, BY_THE_DEAD_END)?);
    Ok(())
}

const FROM_THE_VIA_WAY: &[u8] = b"GET /route/v1/car/0.0015,0;0.003,0?overview=false\n";

const HALF_OF_IT_AND_ON: &[u8] =
    b"{\"code\":\"Ok\",\"data_version\":\"0\",\"routes\":[{\"distance\":166.7,\"duration\":14.9,\"weight\":14.9,\"weight_name\":\"duration\",\"legs\":[{\"distance\":166.7,\"duration\":14.9,\"weight\":14.9,\"summary\":\"\",\"steps\":[]}]}],\"waypoints\":[{\"distance\":0.0,\"name\":\"\",\"location\":[0.001500,0.000000]},{\"distance\":0.0,\"name\":\"\",\"location\":[0.003000,0.000000]}]}\n";

#[test]
fn who_begins_on_the_via_way_may_go_on(rt: HostRuntime) -> Result<(), AllocError> {
    assert!(rt;
        fork_ends(
            &rt,
            rt.alloc(),
            NOT_STRAIGHT_ON,
            FROM_THE_VIA_WAY,
            HALF_OF_IT_AND_ON
        )?
    );
    Ok(())
}

// Through a place in the middle of the via way in one walk, which came from the first street.
const THROUGH_THE_VIA_WAY: &[u8] =
    b"GET /route/v1/car/0,0;0.0015,0;0.003,0?overview=false&continue_straight=true\n";

const ROUND_BEHIND_THE_PLACE: &[u8] =
    b"{\"code\":\"Ok\",\"data_version\":\"0\",\"routes\":[{\"distance\":555.5,\"duration\":69.5,\"weight\":69.5,\
\"weight_name\":\"duration\",\"legs\":[{\"distance\":166.6,\"duration\":14.8,\"weight\":14.8,\"summary\":\"\",\
\"steps\":[]},{\"distance\":388.9,\"duration\":54.7,\"weight\":54.7,\"summary\":\"\",\"steps\":[]}]}],\
\"waypoints\":[{\"distance\":0.0,\"name\":\"\",\"location\":[0.000000,0.000000]},{\"distance\":0.0,\"name\":\"\",\
\"location\":[0.001500,0.000000]},{\"distance\":0.0,\"name\":\"\",\"location\":[0.003000,0.000000]}]}\n";

#[test]
fn a_place_on_the_via_way_lets_nobody_go_on(rt: HostRuntime) -> Result<(), AllocError> {
    assert!(rt;
        fork_ends(
            &rt,
            rt.alloc(),
            NOT_STRAIGHT_ON,
            THROUGH_THE_VIA_WAY,
            ROUND_BEHIND_THE_PLACE
        )?
    );
    Ok(())
}

// Lines, each with what their reply has in it: legs each by itself, which forget where they come from; one walk through two
// places on the via way; one into the dead end; tables; a trip; the nodes along the walk, with what a driver meets where he
// may turn by the map; and the way back.
const LINES: &str =
    "GET /route/v1/car/0,0;0.0015,0;0.003,0?overview=false\n|\"routes\":[{\"distance\":333.3,\"duration\":29.7,$\
GET /route/v1/car/0,0;0.0015,0;0.0018,0;0.003,0?overview=false&continue_straight=true\n|\"legs\":[{\"distance\":166.6,\"duration\":14.8,\"weight\":14.8,\"summary\":\"\",\"steps\":[]},{\"distance\":33.3,\"duration\":3.0,\"weight\":3.0,\"summary\":\"\",\"steps\":[]},{\"distance\":355.6,\"duration\":51.7,\"weight\":51.7,\"summary\":\"\",\"steps\":[]}]$\
GET /route/v1/car/0,0;0.0015,0;0.002,0.001?overview=false&continue_straight=true\n|\"routes\":[{\"distance\":333.3,\"duration\":29.7,$\
GET /route/v1/car/0.0015,0;0.0018,0;0.003,0?overview=false&continue_straight=true\n|\"routes\":[{\"distance\":166.7,\"duration\":14.9,$\
GET /table/v1/car/0,0;0.0015,0;0.003,0;0.002,0.001?sources=0;1&destinations=2;3&skip_waypoints=true\n|\"durations\":[[69.5,29.7],[14.9,14.9]]}$\
GET /table/v1/car/0,0;0.003,0?annotations=distance&skip_waypoints=true\n|\"distances\":[[0.0,555.5],[333.3,0.0]]}$\
GET /trip/v1/car/0,0;0.003,0?overview=false&skip_waypoints=true\n|\"trips\":[{\"distance\":888.8,\"duration\":99.2,\"weight\":99.2,\"weight_name\":\"duration\",\"legs\":[{\"distance\":555.5,\"duration\":69.5,\"weight\":69.5,\"summary\":\"\",\"steps\":[]},{\"distance\":333.3,\"duration\":29.7,\"weight\":29.7,\"summary\":\"\",\"steps\":[]}]}]}$\
GET /route/v1/car/0,0;0.003,0?overview=false&annotations=nodes\n|\"annotation\":{\"nodes\":[1,2,3,5,3,4]}$\
GET /route/v1/car/0,0;0.003,0?overview=false&steps=true\n|{\"location\":[0.002000,0.000000],\"bearings\":[0,90,270],\"entry\":[true,true,false],\"in\":2,\"out\":0}$\
GET /route/v1/car/0.003,0;0,0?overview=false\n|\"routes\":[{\"distance\":333.3,\"duration\":29.7,";

#[test]
fn each_line_has_its_reply(rt: HostRuntime) -> Result<(), AllocError> {
    for row in LINES.split('$') {
        let (line, expected) = row.split_once('|').expect(&rt, "a row of two");
        assert!(rt;
            fork_shows(&rt, rt.alloc(), NOT_STRAIGHT_ON, line, expected)?,
            "{row}"
        );
    }
    Ok(())
}

// Relations over the fork, each with a line and what its reply has in it: who must turn left, from the first street and on
// the second one; who must go straight on, on the way into the dead end; members in another order; one that leads the other
// way; no turning back at the dead end, for who goes straight on, and for who may not; one that excepts the vehicle, and
// five via ways.
const RELATIONS: &str =
    "r1 Ttype=restriction,restriction=only_left_turn Mw1@from,w2@via,w4@to\n|GET /route/v1/car/0,0;0.003,0?overview=false\n|\"routes\":[{\"distance\":555.5,\"duration\":69.5,$\
r1 Ttype=restriction,restriction=only_left_turn Mw1@from,w2@via,w4@to\n|GET /route/v1/car/0.0015,0;0.003,0?overview=false\n|\"routes\":[{\"distance\":166.7,\"duration\":14.9,$\
r1 Ttype=restriction,restriction=only_straight_on Mw1@from,w2@via,w3@to\n|GET /route/v1/car/0,0;0.002,0.001?overview=false\n|\"routes\":[{\"distance\":555.5,\"duration\":69.5,$\
r1 Ttype=restriction,restriction=only_straight_on Mw1@from,w2@via,w3@to\n|GET /table/v1/car/0,0;0.003,0;0.002,0.001?sources=0&destinations=1;2&skip_waypoints=true\n|\"durations\":[[29.7,69.5]]}$\
r1 Ttype=restriction,restriction=no_straight_on Mw2@via,w3@to,n3@location_hint,w1@from\n|GET /route/v1/car/0,0;0.003,0?overview=false\n|\"routes\":[{\"distance\":555.5,\"duration\":69.5,$\
r1 Ttype=restriction,restriction=no_straight_on Mw3@from,w2@via,w1@to\n|GET /route/v1/car/0.003,0;0,0?overview=false\n|\"routes\":[{\"distance\":555.5,\"duration\":69.5,$\
r1 Ttype=restriction,restriction=no_straight_on Mw3@from,w2@via,w1@to\n|GET /route/v1/car/0,0;0.003,0?overview=false\n|\"routes\":[{\"distance\":333.3,\"duration\":29.7,$\
r1 Ttype=restriction,restriction=no_u_turn Mw1@from,w2@via,w4@via,w4@to\n|GET /route/v1/car/0,0;0.003,0?overview=false\n|\"routes\":[{\"distance\":333.3,\"duration\":29.7,$\
r1 Ttype=restriction,restriction=no_u_turn Mw1@from,w2@via,w4@via,w4@to\nr2 Ttype=restriction,restriction=no_straight_on Mw1@from,w2@via,w3@to\n|GET /route/v1/car/0,0;0.003,0?overview=false\n|{\"code\":\"NoRoute\",\"data_version\":\"0\",\"message\":\"leg 0\"}$\
r1 Ttype=restriction,restriction=no_straight_on,except=motorcar Mw1@from,w2@via,w3@to\n|GET /route/v1/car/0,0;0.003,0?overview=false\n|\"routes\":[{\"distance\":333.3,\"duration\":29.7,$\
r1 Ttype=restriction,restriction=no_straight_on Mw1@from,w2@via,w2@via,w2@via,w2@via,w2@via,w3@to\n|GET /route/v1/car/0,0;0.003,0?overview=false\n|\"routes\":[{\"distance\":333.3,\"duration\":29.7,";

#[test]
fn each_relation_forbids_what_it_says(rt: HostRuntime) -> Result<(), AllocError> {
    for row in RELATIONS.split('$') {
        let (relations, rest) = row.split_once('|').expect(&rt, "a row of two");
        let (line, expected) = rest.split_once('|').expect(&rt, "a row of two");
        assert!(rt;
            fork_shows(&rt, rt.alloc(), relations.as_bytes(), line, expected)?,
            "{row}"
        );
    }
    Ok(())
}

// Whether the count of the fork with these relations has this text in it.
fn counts(
    rt: &(impl Threads + Wait + Net<Listener = TcpListener, Stream = TcpStream> + Sync),
    alloc: Global,
    relations: &[u8],
    expected: &str,
) -> Result<bool, AllocError> {
    let map = fork_with(alloc, relations)?;
    let case = Case {
        words: "check town.opl settings.toml",
        map: map.as_slice(),
        ..Case::over_town(LINE)
    };
    shows(rt, alloc, case, expected)
}

#[test]
fn vertices_and_turns_are_counted_without_copies(rt: HostRuntime) -> Result<(), AllocError> {
    let all =
        "nodes 5\nways 4\nrelations 1\nsegments 4\nvertices 8\nturns 11\nrestrictions 1\nignored 0\n";
    assert!(rt; counts(&rt, rt.alloc(), NOT_STRAIGHT_ON, all)?);
    Ok(())
}

// Relations over the fork, each with how many apply and are ignored: one over one via way, one over two, one that leaves one
// way on; then `no_entry`, a node among the via ways, five of them, two `from` ways, via ways in the wrong order, one that
// doesn't exist, one that is left where it is entered, a way from which none comes onto the path, one onto which none leads,
// and one that excepts the vehicle.
const COUNTS: &str =
    "r1 Ttype=restriction,restriction=no_u_turn Mw1@from,w2@via,w3@to\n|restrictions 1\nignored 0\n$\
r1 Ttype=restriction,restriction=no_u_turn Mw1@from,w2@via,w4@via,w4@to\n|restrictions 1\nignored 0\n$\
r1 Ttype=restriction,restriction=only_left_turn Mw1@from,w2@via,w4@to\n|restrictions 1\nignored 0\n$\
r1 Ttype=restriction,restriction=no_entry Mw1@from,w2@via,w3@to\n|restrictions 0\nignored 1\n$\
r1 Ttype=restriction,restriction=no_straight_on Mw1@from,w2@via,n3@via,w3@to\n|restrictions 0\nignored 1\n$\
r1 Ttype=restriction,restriction=no_straight_on Mw1@from,w2@via,w2@via,w2@via,w2@via,w2@via,w3@to\n|restrictions 0\nignored 1\n$\
r1 Ttype=restriction,restriction=no_straight_on Mw1@from,w4@from,w2@via,w3@to\n|restrictions 0\nignored 1\n$\
r1 Ttype=restriction,restriction=no_u_turn Mw1@from,w4@via,w2@via,w4@to\n|restrictions 0\nignored 1\n$\
r1 Ttype=restriction,restriction=no_straight_on Mw1@from,w9@via,w3@to\n|restrictions 0\nignored 1\n$\
w5 Thighway=residential Nn2,n3,n2\nr1 Ttype=restriction,restriction=no_straight_on Mw1@from,w5@via,w2@to\n|restrictions 0\nignored 1\n$\
r1 Ttype=restriction,restriction=no_straight_on Mw3@from,w1@via,w2@to\n|restrictions 0\nignored 1\n$\
r1 Ttype=restriction,restriction=no_u_turn Mw1@from,w2@via,w1@to\n|restrictions 0\nignored 1\n$\
r1 Ttype=restriction,restriction=no_straight_on,except=motorcar Mw1@from,w2@via,w3@to\n|restrictions 0\nignored 0\n";

#[test]
fn relations_apply_or_are_ignored(rt: HostRuntime) -> Result<(), AllocError> {
    for row in COUNTS.split('$') {
        let (relations, expected) = row.split_once('|').expect(&rt, "a row of two");
        assert!(rt;
            counts(&rt, rt.alloc(), relations.as_bytes(), expected)?,
            "{row}"
        );
    }
    Ok(())
}

// Rows of speeds, each with a line behind them and what the replies have in them: a slower via way, whose copy is as slow; a
// closed dead end, so that no way leads round, and one who begins on the via way.
const UNDER_TRAFFIC: &str =
    "2,3,20\n|TRAFFIC speeds.csv -\nGET /route/v1/car/0,0;0.003,0?overview=false\n|\"routes\":[{\"distance\":555.5,\"duration\":79.5,$\
3,5,0\n|TRAFFIC speeds.csv -\nGET /route/v1/car/0,0;0.003,0?overview=false\n|{\"code\":\"NoRoute\",\"data_version\":\"1\",\"message\":\"leg 0\"}$\
3,5,0\n|TRAFFIC speeds.csv -\nGET /route/v1/car/0.0015,0;0.003,0?overview=false\n|\"routes\":[{\"distance\":166.7,\"duration\":14.9,";

// Whether a run over the restricted fork under these rows puts what has this text in it.
fn shows_under(
    rt: &(impl Threads + Wait + Net<Listener = TcpListener, Stream = TcpStream> + Sync),
    alloc: Global,
    rows: &str,
    lines: &str,
    expected: &str,
) -> Result<bool, AllocError> {
    let map = fork_with(alloc, NOT_STRAIGHT_ON)?;
    let case = Case {
        map: map.as_slice(),
        rows: rows.as_bytes(),
        ..Case::over_town(lines.as_bytes())
    };
    shows(rt, alloc, case, expected)
}

#[test]
fn traffic_is_that_of_the_via_way(rt: HostRuntime) -> Result<(), AllocError> {
    for row in UNDER_TRAFFIC.split('$') {
        let (rows, rest) = row.split_once('|').expect(&rt, "a row of two");
        let (lines, expected) = rest.split_once('|').expect(&rt, "a row of two");
        assert!(rt;
            shows_under(&rt, rt.alloc(), rows, lines, expected)?,
            "{row}"
        );
    }
    Ok(())
}

// A one-way street that leads to and fro between two nodes, so many times, and from the second of them a path of 63
// segments to and fro between that and a third one, behind which a street may not be entered.
fn often_entered(alloc: Global, times: usize) -> Result<Vec<u8>, AllocError> {
    let nodes =
        b"n1 x0 y0\nn2 x0.001 y0\nn3 x0.002 y0\nn4 x0.003 y0\nw1 Thighway=residential,oneway=yes Nn1";
    let street = repeated(alloc, nodes, b",n2,n1", times)?;
    let path = repeated(alloc, b"\nw2 Thighway=residential Nn2,n3", b",n2,n3", 31)?;
    let mut map = repeated(alloc, street.as_slice(), path.as_slice(), 1)?;
    map.extend_from_slice(b"\nw3 Thighway=residential Nn3,n4\n")?;
    map.extend_from_slice(NOT_STRAIGHT_ON)?;
    Ok(map)
}

// Whether the map with so many entries is refused with this line.
fn is_refused(
    rt: &(impl Threads + Wait + Net<Listener = TcpListener, Stream = TcpStream> + Sync),
    alloc: Global,
    times: usize,
    line: &[u8],
) -> Result<bool, AllocError> {
    let map = often_entered(alloc, times)?;
    let case = Case {
        map: map.as_slice(),
        ..Case::over_town(LINE)
    };
    ends(rt, alloc, case, Status::Refused, line)
}

// Each entry has 63 copies: of 16645 these are more than 2^20, of one fewer they are not, but then there are too many turns.
#[test]
fn past_the_most_copies_a_map_is_refused(rt: HostRuntime) -> Result<(), AllocError> {
    assert!(rt; is_refused(&rt, rt.alloc(), 16_645, b"too many vias\n")?);
    assert!(rt; is_refused(&rt, rt.alloc(), 16_644, b"too many turns\n")?);
    Ok(())
}
