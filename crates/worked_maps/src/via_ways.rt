//! Worked networks under turn restrictions over via ways. Expected values are from this project's rules, worked out by hand.

use edge_graph::Network;
use small_towns::{CAR, network_of};
use std::alloc::{AllocError, Global};
use std::process::Abort;

// Way 1 goes east from node 1 to 2, way 2 on to 3, way 3 on to 4, and way 4 north from 3 to 5. Way 6 is a footway.
const TOWN: &str = "n1 x0 y0
n2 x0.001 y0
n3 x0.002 y0
n4 x0.003 y0
n5 x0.002 y0.001
n6 x0.003 y0.001
n7 x0.003 y-0.001
w1 Thighway=residential Nn1,n2
w2 Thighway=residential Nn2,n3
w3 Thighway=residential Nn3,n4
w4 Thighway=residential Nn3,n5
w6 Thighway=footway Nn2,n5";

// Where each restriction alone leads past copies: its value and its members, the arcs of the searched graph, and the
// vertices for which the copies stand.
const FORBIDDEN: &str = "\
no_straight_on|w1@from,w2@via,w3@to|0-8 1-0 2-4 2-6 3-1 4-5 5-3 5-6 6-7 7-3 7-4 8-6 / 2
only_straight_on|w1@from,w2@via,w3@to|0-8 1-0 2-4 2-6 3-1 4-5 5-3 5-6 6-7 7-3 7-4 8-4 / 2
only_left_turn|w1@from,w2@via,w9@to|0-8 1-0 2-4 2-6 3-1 4-5 5-3 5-6 6-7 7-3 7-4 / 2
no_straight_on|w3@from,w2@via,w1@to|0-2 1-0 2-4 2-6 3-1 4-5 5-8 5-6 6-7 7-3 7-4 / 3
no_u_turn|w1@from,w2@via,w3@via,w3@to|0-8 1-0 2-4 2-6 3-1 4-5 5-3 5-6 6-7 7-3 7-4 8-9 8-6 / 2 4
no_u_turn|w1@from,w1@via,w2@to|0-2 1-8 2-4 2-6 3-1 4-5 5-3 5-6 6-7 7-3 7-4 / 0
no_u_turn|w1@from,w2@via,w4@via,w4@to|0-8 1-0 2-4 2-6 3-1 4-5 5-3 5-6 6-7 7-3 7-4 8-4 8-9 / 2 6";

// Those of which nothing comes: a via way that is not there, that no vehicle may use, that the `from` way doesn't meet, or
// from which the `to` way isn't reached; and ways that don't join.
const IGNORED: &str = "\
no_straight_on|w1@from,w9@via,w3@to
no_straight_on|w1@from,w6@via,w4@to
no_straight_on|w1@from,w3@via,w4@to
no_straight_on|w1@from,w2@via,w1@to
no_straight_on|w1@from,w2@via,w9@to
no_straight_on|w9@from,w2@via,w3@to
no_straight_on|w1@from,w2@via,w1@via,w3@to
no_straight_on|w1@from,w2@via,w3@via,w4@via,w3@to";

// The arcs of the searched graph, the vertices for which the copies stand, and how many restrictions apply and are ignored.
fn told(alloc: Global, network: &Network) -> Result<String, AllocError> {
    let mut text = String::new(alloc);
    let graph = network.graph();
    for i in 0..graph.arcs() {
        let (from, to) = graph.arc(i);
        text.push_str(format!(in alloc; "{from}-{to} ")?.as_str())?;
    }
    text.push_str("/")?;
    for q in 2 * network.segments()..graph.vertices() {
        let vertex = network.stands_for(q);
        text.push_str(format!(in alloc; " {vertex}")?.as_str())?;
    }
    let (applied, ignored) = (network.applied(), network.ignored());
    format!(in alloc; "{text} | {applied} {ignored}")
}

// Asserts that of the town with these lines behind it.
fn assert_town(rt: &impl Abort, alloc: Global, lines: &str, want: &str) -> Result<(), AllocError> {
    let map = format!(in alloc; "{TOWN}\n{lines}")?;
    let Ok(network) = network_of(alloc, map.as_str(), CAR) else {
        return Err(AllocError);
    };
    let got = told(alloc, &network)?;
    assert_eq!(rt; got.as_str(), want);
    Ok(())
}

// A restriction of this value with these members.
fn restriction(alloc: Global, id: u32, value: &str, members: &str) -> Result<String, AllocError> {
    format!(in alloc; "r{id} Ttype=restriction,restriction={value} M{members}")
}

fn assert_forbidden(rt: &impl Abort, alloc: Global, row: &str) -> Result<(), AllocError> {
    let mut parts = row.split('|');
    match (parts.next(), parts.next(), parts.next()) {
        (Some(value), Some(members), Some(want)) => {
            let line = restriction(alloc, 1, value, members)?;
            let want = format!(in alloc; "{want} | 1 0")?;
            assert_town(rt, alloc, line.as_str(), want.as_str())
        }
        _ => panic!(rt; "a row of three"),
    }
}

#[test]
fn restrictions_over_via_ways_make_copies(rt: HostRuntime) -> Result<(), AllocError> {
    for row in FORBIDDEN.split('\n') {
        assert_forbidden(&rt, rt.alloc(), row)?;
    }
    Ok(())
}

const FREE: &str = "0-2 1-0 2-4 2-6 3-1 4-5 5-3 5-6 6-7 7-3 7-4 /";

fn assert_ignored(rt: &impl Abort, alloc: Global, row: &str) -> Result<(), AllocError> {
    let Some((value, members)) = row.split_once('|') else {
        panic!(rt; "a row of two");
    };
    let line = restriction(alloc, 1, value, members)?;
    let want = format!(in alloc; "{FREE} | 0 1")?;
    assert_town(rt, alloc, line.as_str(), want.as_str())
}

#[test]
fn restrictions_of_which_nothing_comes_are_ignored(rt: HostRuntime) -> Result<(), AllocError> {
    for row in IGNORED.split('\n') {
        assert_ignored(&rt, rt.alloc(), row)?;
    }
    Ok(())
}

const TWICE: &str = "r1 Ttype=restriction,restriction=no_straight_on Mw1@from,w2@via,w3@to
r2 Ttype=restriction,restriction=no_right_turn Mw1@from,w2@via,w3@to
r3 Ttype=restriction,restriction=no_left_turn Mw1@from,w2@via,w9@to
r4 Ttype=restriction,restriction=no_left_turn,except=motorcar Mw1@from,w2@via,w4@to";

// Two allow one way only, each another one, and so together none.
const NONE_LEFT: &str = "r1 Ttype=restriction,restriction=only_straight_on Mw1@from,w2@via,w3@to
r2 Ttype=restriction,restriction=only_left_turn Mw1@from,w2@via,w4@to";

// The turn onto the via way is forbidden by itself.
const NO_PATH: &str = "r1 Ttype=restriction,restriction=no_straight_on Mw1@from,w2@via,w3@to
r2 Ttype=restriction,restriction=no_straight_on Mw1@from,n2@via,w2@to";

// Equal restrictions share their copies; those at a node come first, and may leave nothing to the others.
#[test]
fn restrictions_over_via_ways_stand_together(rt: HostRuntime) -> Result<(), AllocError> {
    let alloc = rt.alloc();
    let once = "0-8 1-0 2-4 2-6 3-1 4-5 5-3 5-6 6-7 7-3 7-4 8-6 / 2 | 2 1";
    assert_town(&rt, alloc, TWICE, once)?;
    let none = "0-8 1-0 2-4 2-6 3-1 4-5 5-3 5-6 6-7 7-3 7-4 / 2 | 2 0";
    assert_town(&rt, alloc, NONE_LEFT, none)?;
    let apart = "1-0 2-4 2-6 3-1 4-5 5-3 5-6 6-7 7-3 7-4 / | 1 1";
    assert_town(&rt, alloc, NO_PATH, apart)
}

// A street that goes to and fro between node 3 and a node east of it, an odd number of segments, another one from there,
// and a restriction that forbids to come along these ways onto the other one.
fn long(alloc: Global, segments: usize, members: &str) -> Result<String, AllocError> {
    let mut text = String::from_str(alloc, "n8 x0.004 y0\nn9 x0.004 y0.001\n")?;
    text.push_str("w7 Thighway=residential,oneway=yes Nn3,n8")?;
    let pairs = ",n3,n8".repeat(alloc, segments / 2)?;
    text.push_str(pairs.as_str())?;
    text.push_str("\nw8 Thighway=residential,oneway=yes Nn8,n9\n")?;
    let line = restriction(alloc, 1, "no_left_turn", members)?;
    text.push_str(line.as_str())?;
    Ok(text)
}

// How many restrictions apply and are ignored where the street has so many segments.
fn assert_long(
    rt: &impl Abort,
    alloc: Global,
    segments: usize,
    members: &str,
    counts: (u64, u64),
) -> Result<(), AllocError> {
    let lines = long(alloc, segments, members)?;
    let map = format!(in alloc; "{TOWN}\n{lines}")?;
    let Ok(network) = network_of(alloc, map.as_str(), CAR) else {
        return Err(AllocError);
    };
    assert_eq!(rt; (network.applied(), network.ignored()), counts);
    Ok(())
}

// Over ways 2 and 7, and over way 1 before them, back from its end.
const TWO: &str = "w1@from,w2@via,w7@via,w8@to";

const THREE: &str = "w1@from,w1@via,w2@via,w7@via,w8@to";

// A path has 64 vertices at most, and its ways have two ends.
#[test]
fn long_paths_and_rings_are_ignored(rt: HostRuntime) -> Result<(), AllocError> {
    let alloc = rt.alloc();
    assert_long(&rt, alloc, 63, TWO, (1, 0))?;
    assert_long(&rt, alloc, 61, THREE, (1, 0))?;
    assert_long(&rt, alloc, 63, THREE, (0, 1))?;
    let ring = "w5 Thighway=residential,oneway=yes Nn3,n6,n7,n3
r1 Ttype=restriction,restriction=no_straight_on Mw2@from,w5@via,w3@to";
    let want =
        "0-2 1-0 2-4 2-6 2-8 3-1 4-5 5-3 5-6 5-8 6-7 7-3 7-4 7-8 8-10 10-12 12-3 12-4 12-6 12-8 / | 0 1";
    assert_town(&rt, alloc, ring, want)
}
