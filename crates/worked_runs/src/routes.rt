//! Routes over small maps, each worked out by hand.

use run_cases::{Case, LINE, SETTINGS, SOUTH_TO_WEST, TOWN_NAMED, shows, star};
use std::alloc::{AllocError, Global};
use std::net::{Net, TcpListener, TcpStream};
use std::process::Abort;
use std::sync::Wait;
use std::thread::Threads;

// A block that may be driven round one way only, and a street that may be driven one way.
const BLOCK: &[u8] =
    b"n1 x0 y0\nn2 x0.001 y0\nn3 x0.001 y0.001\nn4 x0 y0.001\nw20 Thighway=residential,oneway=yes Nn1,n2,n3,n4,n1\n";

const STREET: &[u8] = b"n1 x0 y0\nn2 x0.001 y0\nw20 Thighway=residential,oneway=yes Nn1,n2\n";

// The town with a barrier.
const TOWN_BARRED: &[u8] =
    b"n1 x0 y0\nn2 x0 y0.001 Tbarrier=bollard\nn3 x0.001 y0.001\nw10 Thighway=residential Nn1,n2,n3\n";

const BARRIERS: &[u8] =
    b"name = \"car\"\nvehicle = \"motorcar\"\nu_turn_penalty = 200\nbarriers = [\"bollard\"]\n[speeds]\nresidential = 40\n";

// From the third quarter of a street to the first.
const BACKWARDS: &[u8] = b"GET /route/v1/car/0.00075,0;0.00025,0?overview=false\n";

// Whether the reply to a line has this text in it.
fn is_shown(
    rt: &(impl Threads + Wait + Net<Listener = TcpListener, Stream = TcpStream> + Sync),
    alloc: Global,
    map: &[u8],
    line: &[u8],
    expected: &str,
) -> Result<bool, AllocError> {
    let case = Case {
        map,
        ..Case::over_town(line)
    };
    shows(rt, alloc, case, expected)
}

#[test]
fn routes_over_small_maps(rt: HostRuntime) -> Result<(), AllocError> {
    let alloc = rt.alloc();
    let no_route = "{\"code\":\"NoRoute\",\"data_version\":\"0\",\"message\":\"leg 0\"}";
    assert!(rt;
        is_shown(
            &rt,
            alloc,
            BLOCK,
            BACKWARDS,
            "[{\"distance\":388.8,\"duration\":34.6,"
        )?
    );
    assert!(rt; is_shown(&rt, alloc, STREET, BACKWARDS, no_route)?);
    assert!(rt; is_shown(&rt, alloc, TOWN_NAMED, LINE, "\"name\":\"Main Street\\r\"")?);
    let barred = Case {
        map: TOWN_BARRED,
        settings: BARRIERS,
        ..Case::over_town(LINE)
    };
    assert!(rt; shows(&rt, alloc, barred, no_route)?);
    Ok(())
}

const SIGNALS: &[u8] =
    b"name = \"car\"\nvehicle = \"motorcar\"\nu_turn_penalty = 200\nsignal_penalty = 30\n[speeds]\nresidential = 40\n";

const LEFTS: &[u8] =
    b"name = \"car\"\nvehicle = \"motorcar\"\nu_turn_penalty = 200\n[speeds]\nresidential = 40\n[turn_penalty]\nleft = 50\n";

const SIGNALS_AND_LEFTS: &[u8] =
    b"name = \"car\"\nvehicle = \"motorcar\"\nu_turn_penalty = 200\nsignal_penalty = 30\n[speeds]\nresidential = 40\n[turn_penalty]\nleft = 50\n";

// Routes from the south to the west over the star, straight or round the north: the tags at its fifth node, the restriction,
// and what the reply has in it.
const STARS: &str = "||[{\"distance\":222.2,\"duration\":19.8,$\
|r1 Ttype=restriction,restriction=no_left_turn Mw1@from,n5@via,w4@to\n|[{\"distance\":444.4,\"duration\":59.6,$\
|r1 Ttype=restriction,restriction=only_straight_on Mw1@from,n5@via,w3@to\n|[{\"distance\":444.4,\"duration\":59.6,$\
|r1 Ttype=restriction,restriction=no_left_turn,except=bus;motorcar Mw1@from,n5@via,w4@to\n|[{\"distance\":222.2,\"duration\":19.8,$\
|r1 Ttype=restriction,restriction=only_straight_on,except=bus;motorcar Mw1@from,n5@via,w3@to\n|[{\"distance\":222.2,\"duration\":19.8,";

// Whether the reply over a row's star has its text in it.
fn star_shows(
    rt: &(impl Abort + Threads + Wait + Net<Listener = TcpListener, Stream = TcpStream> + Sync),
    alloc: Global,
    settings: &[u8],
    row: &str,
) -> Result<bool, AllocError> {
    let (tags, rest) = row.split_once('|').expect(rt, "a row of two");
    let (restriction, expected) = rest.split_once('|').expect(rt, "a row of two");
    let map = star(alloc, tags.as_bytes(), restriction.as_bytes())?;
    let case = Case {
        map: map.as_slice(),
        settings,
        ..Case::over_town(SOUTH_TO_WEST)
    };
    shows(rt, alloc, case, expected)
}

#[test]
fn routes_over_a_star(rt: HostRuntime) -> Result<(), AllocError> {
    let alloc = rt.alloc();
    for row in STARS.split('$') {
        assert!(rt; star_shows(&rt, alloc, SETTINGS, row)?, "{row}");
    }
    let signal = " Thighway=traffic_signals||[{\"distance\":222.2,\"duration\":22.8,";
    let left = "||[{\"distance\":222.2,\"duration\":24.8,";
    let both = " Thighway=traffic_signals||[{\"distance\":222.2,\"duration\":27.8,";
    assert!(rt; star_shows(&rt, alloc, SIGNALS, signal)?);
    assert!(rt; star_shows(&rt, alloc, LEFTS, left)?);
    assert!(rt; star_shows(&rt, alloc, SIGNALS_AND_LEFTS, both)?);
    Ok(())
}
