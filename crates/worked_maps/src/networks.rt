//! Worked networks. Expected values are from this project's rules, worked out by hand.

ghost use Rattle.std.specs.Prelude.{◌*◌, ◌<◌, length};

use edge_graph::{BuildFault, Network};
use small_towns::{CAR, bend, crossing, network_of, to_and_fro};
use std::alloc::{AllocError, Global};
use std::process::Abort;

// All turns of the crossing where nothing forbids any.
const CROSSING: &str = "0-2 0-4 0-7 1-0 2-3 3-1 3-4 3-7 4-5 5-1 5-2 5-7 6-1 6-2 6-4 7-6 ";

// What a vertex is: its nodes, `-` where it is not permitted, its exits, its speed and its name.
fn vertex(alloc: Global, network: &Network, v: u32) -> Result<String, AllocError>
    requires { v < 2 * length network.now.segments }
{
    let (tail, head) = (network.tail(v), network.head(v));
    let mark = if network.permitted(v) { ">" } else { "-" };
    let (exits, speed, name) = (network.exits(v), network.speed(v), network.name(v));
    format!(in alloc; "{tail}{mark}{head} {exits} {speed} {name}; ")
}

// The turns of a network.
fn turns_told(alloc: Global, network: &Network) -> Result<String, AllocError> {
    let mut text = String::new(alloc);
    for i in 0..network.graph().arcs() {
        let (from, to) = network.graph().arc(i);
        text.push_str(format!(in alloc; "{from}-{to} ")?.as_str())?;
    }
    Ok(text)
}

// What a network is: its vertices and its turns.
fn told(alloc: Global, network: &Network) -> Result<String, AllocError> {
    let mut text = String::new(alloc);
    for v in 0..2 * network.segments() {
        text.push_str(vertex(alloc, network, v)?.as_str())?;
    }
    text.push_str(turns_told(alloc, network)?.as_str())?;
    Ok(text)
}

// What building the network of a map gives.
fn built(alloc: Global, map: &str) -> Result<String, AllocError> {
    match network_of(alloc, map, CAR) {
        Ok(network) => told(alloc, &network),
        Err(BuildFault::TooManySegments) => String::from_str(alloc, "too many segments"),
        Err(BuildFault::TooManyVias) => String::from_str(alloc, "too many vias"),
        Err(BuildFault::TooManyTurns) => String::from_str(alloc, "too many turns"),
        Err(BuildFault::Memory) => Err(AllocError),
    }
}

// Asserts that.
fn assert_built(rt: &impl Abort, alloc: Global, map: &str, want: &str) -> Result<(), AllocError> {
    let got = built(alloc, map)?;
    assert_eq!(rt; got.as_str(), want);
    Ok(())
}

#[test]
fn a_way_has_both_directions_and_turns_back_at_its_ends(rt: HostRuntime) -> Result<(), AllocError> {
    let alloc = rt.alloc();
    let map = bend(alloc, "")?;
    let want = "1>2 1 40000 ; 2>1 0 40000 ; 2>3 0 40000 ; 3>2 1 40000 ; 0-2 1-0 2-3 3-1 ";
    assert_built(&rt, alloc, map.as_str(), want)?;
    assert_built(&rt, alloc, "", "")
}

// Asserts which turns the bend has.
fn assert_turns(rt: &impl Abort, network: &Network) {
    assert_eq!(rt; network.segments(), 2);
    assert_eq!(rt; network.turn(0, 2), Some(0));
    assert_eq!(rt; network.turn(3, 1), Some(3));
    assert_eq!(rt; network.turn(0, 1), None);
}

#[test]
fn a_turn_is_found_by_its_ends(rt: HostRuntime) -> Result<(), AllocError> {
    let alloc = rt.alloc();
    let map = bend(alloc, "")?;
    let Ok(network) = network_of(alloc, map.as_str(), CAR) else {
        return Err(AllocError);
    };
    assert_turns(&rt, &network);
    Ok(())
}

// A street both ways, a footway, and a one-way street whose nodes follow themselves or lie nowhere.
const TWO_STREETS: &str = "w20 Thighway=residential,name=B Nn1,n2
w15 Thighway=footway Nn1,n2
w10 Thighway=residential,name=A,oneway=yes Nn2,n3,n3,n9,n3,n1
n1 x0 y0
n2 x0 y0.001
n3 x0.001 y0.001";

// The ways count by their ids, and not as they stand in the file; there is no turn back where the one-way
// street leads on.
#[test]
fn segments_go_by_way_and_place(rt: HostRuntime) -> Result<(), AllocError> {
    let want =
        "2>3 1 40000 A; 3-2 1 40000 A; 3>1 1 40000 A; 1-3 0 40000 A; 1>2 1 40000 B; 2>1 0 40000 B; 0-2 2-4 4-0 5-4 ";
    assert_built(&rt, rt.alloc(), TWO_STREETS, want)
}

// Asserts what building the network of a way to and fro gives.
fn assert_to_and_fro(
    rt: &impl Abort,
    alloc: Global,
    segments: usize,
    want: &str,
) -> Result<(), AllocError> {
    let map = to_and_fro(alloc, segments)?;
    assert_built(rt, alloc, map.as_str(), want)
}

// 2 * 8193 * 8192 turns are more than 2^27, and 16777217 segments more than 2^24.
#[test]
fn past_the_limits_no_network_is_built(rt: HostRuntime) -> Result<(), AllocError> {
    assert_to_and_fro(&rt, rt.alloc(), 8193, "too many turns")?;
    assert_to_and_fro(&rt, rt.alloc(), 16777217, "too many segments")
}

// The turns of a network, how many restrictions apply in it, and how many are ignored.
fn restricted_told(alloc: Global, network: &Network) -> Result<String, AllocError> {
    let turns = turns_told(alloc, network)?;
    let (applied, ignored) = (network.applied(), network.ignored());
    format!(in alloc; "{turns}| {applied} {ignored}")
}

// Asserts that of a map.
fn assert_restricted(
    rt: &impl Abort,
    alloc: Global,
    map: &str,
    want: &str,
) -> Result<(), AllocError> {
    let Ok(network) = network_of(alloc, map, CAR) else {
        return Err(AllocError);
    };
    let got = restricted_told(alloc, &network)?;
    assert_eq!(rt; got.as_str(), want);
    Ok(())
}

// Asserts the turns of the crossing under one restriction of this value, from, over and to its members.
fn assert_under(
    rt: &impl Abort,
    alloc: Global,
    value: &str,
    members: &str,
    want: &str,
) -> Result<(), AllocError> {
    let tags = format!(in alloc; "Ttype=restriction,restriction={value},except=bus")?;
    let line = format!(in alloc; "r1 {tags} M{members}")?;
    let map = crossing(alloc, "", line.as_str())?;
    assert_restricted(rt, alloc, map.as_str(), want)
}

// Restrictions at the crossing, each as its value, its members and the turns under it, with a bar between them.
const FORBIDDEN: &str = "\
no_left_turn|w1@from,n5@via,w4@to|0-2 0-4 1-0 2-3 3-1 3-4 3-7 4-5 5-1 5-2 5-7 6-1 6-2 6-4 7-6 
only_straight_on|w1@from,n5@via,w3@to|0-4 1-0 2-3 3-1 3-4 3-7 4-5 5-1 5-2 5-7 6-1 6-2 6-4 7-6 
no_u_turn|w1@from,n1@via,w1@to|0-2 0-4 0-7 2-3 3-1 3-4 3-7 4-5 5-1 5-2 5-7 6-1 6-2 6-4 7-6 
no_entry|w1@from,w2@from,n5@via,w3@to|0-2 0-7 1-0 2-3 3-1 3-7 4-5 5-1 5-2 5-7 6-1 6-2 6-4 7-6 
no_exit|w1@from,n5@via,w2@to,w3@to,w4@to|1-0 2-3 3-1 3-4 3-7 4-5 5-1 5-2 5-7 6-1 6-2 6-4 7-6 ";

// Those that are ignored: whose way does not meet its node, or of too many members.
const IGNORED: &str = "no_left_turn|w1@from,n2@via,w2@to
only_left_turn|w1@from,n5@via,w9@to
no_left_turn|w1@from,w2@from,n5@via,w4@to";

// Asserts a row of those that forbid.
fn assert_forbidden(rt: &impl Abort, alloc: Global, row: &str) -> Result<(), AllocError> {
    let mut parts = row.split('|');
    match (parts.next(), parts.next(), parts.next()) {
        (Some(value), Some(members), Some(turns)) => {
            let want = format!(in alloc; "{turns}| 1 0")?;
            assert_under(rt, alloc, value, members, want.as_str())
        }
        _ => panic!(rt; "a row of three"),
    }
}

// A restriction forbids its own turns and no others; that back in a dead end too. The way that no turn
// leaves any more does not become a dead end.
#[test]
fn restrictions_forbid_their_turns(rt: HostRuntime) -> Result<(), AllocError> {
    assert_at_crossing(&rt, rt.alloc(), "", "0 0")?;
    for row in FORBIDDEN.split('\n') {
        assert_forbidden(&rt, rt.alloc(), row)?;
    }
    Ok(())
}

// Asserts that under one more line nothing is forbidden at the crossing, and how many restrictions apply and how many
// are ignored.
fn assert_at_crossing(
    rt: &impl Abort,
    alloc: Global,
    line: &str,
    counts: &str,
) -> Result<(), AllocError> {
    let map = crossing(alloc, "", line)?;
    let want = format!(in alloc; "{CROSSING}| {counts}")?;
    assert_restricted(rt, alloc, map.as_str(), want.as_str())
}

// Asserts a row of those that are ignored.
fn assert_ignored(rt: &impl Abort, alloc: Global, row: &str) -> Result<(), AllocError> {
    let mut parts = row.split('|');
    match (parts.next(), parts.next()) {
        (Some(value), Some(members)) => {
            let want = format!(in alloc; "{CROSSING}| 0 1")?;
            assert_under(rt, alloc, value, members, want.as_str())
        }
        _ => panic!(rt; "a row of two"),
    }
}

#[test]
fn restrictions_that_do_not_apply_forbid_nothing(rt: HostRuntime) -> Result<(), AllocError> {
    for row in IGNORED.split('\n') {
        assert_ignored(&rt, rt.alloc(), row)?;
    }
    Ok(())
}

const NOT_FOR_CARS: &str =
    "r1 Ttype=restriction,restriction=no_left_turn,except=bus;motorcar Mw1@from,n5@via,w4@to";

const NO_WAY_BACK: &str = "r1 Ttype=restriction,restriction=no_u_turn Mw1@from,n5@via,w1@to";

// One that excepts the vehicle is not even counted.
#[test]
fn a_restriction_may_except_the_vehicle(rt: HostRuntime) -> Result<(), AllocError> {
    assert_at_crossing(&rt, rt.alloc(), NOT_FOR_CARS, "0 0")
}

// Asserts which turns the bend has where its middle has these tags.
fn assert_at_bend(
    rt: &impl Abort,
    alloc: Global,
    at_bend: &str,
    want: &str,
) -> Result<(), AllocError> {
    let map = bend(alloc, at_bend)?;
    assert_restricted(rt, alloc, map.as_str(), want)
}

// At a closed node every way turns back onto itself, unless a restriction forbids that; a barrier that the
// settings do not name closes nothing.
#[test]
fn a_barrier_closes_its_node(rt: HostRuntime) -> Result<(), AllocError> {
    let alloc = rt.alloc();
    assert_at_bend(&rt, alloc, "barrier=bollard", "0-1 1-0 2-3 3-2 | 0 0")?;
    assert_at_bend(&rt, alloc, "barrier=gate", "0-2 1-0 2-3 3-1 | 0 0")?;
    let crossed = crossing(alloc, "barrier=bollard", NO_WAY_BACK)?;
    let want = "1-0 2-3 3-2 4-5 5-4 6-7 7-6 | 1 0";
    assert_restricted(&rt, alloc, crossed.as_str(), want)
}

// A name is kept as it stands, with a carriage return at its end.
#[test]
fn names_are_kept(rt: HostRuntime) -> Result<(), AllocError> {
    let map = "w10 Tname=Main%20%Street%d%,highway=residential Nn1,n2\nn1 x0 y0\nn2 x0 y0.001";
    let want = "1>2 0 40000 Main Street\r; 2>1 0 40000 Main Street\r; 0-1 1-0 ";
    assert_built(&rt, rt.alloc(), map, want)
}

// The vertices that leave each of these nodes.
fn leaving_told(alloc: Global, network: &Network, nodes: &[i64]) -> Result<String, AllocError> {
    let mut text = String::new(alloc);
    for node in nodes {
        for v in network.leaving(*node) {
            text.push_str(format!(in alloc; "{v} ")?.as_str())?;
        }
        text.push_str("| ")?;
    }
    Ok(text)
}

/// Asserts which vertices leave each of these nodes in the network of a map.
pub fn assert_leaving(
    rt: &impl Abort,
    alloc: Global,
    map: &str,
    nodes: &[i64],
    want: &str,
) -> Result<(), AllocError> {
    let Ok(network) = network_of(alloc, map, CAR) else {
        return Err(AllocError);
    };
    let got = leaving_told(alloc, &network, nodes)?;
    assert_eq!(rt; got.as_str(), want);
    Ok(())
}

// Vertices 1 and 3 lead against the one-way street. Node 9 lies nowhere, and no node is 4 or the least or the greatest
// id.
#[test]
fn vertices_leave_a_node_permitted_or_not(rt: HostRuntime) -> Result<(), AllocError> {
    let nodes = [1, 2, 3, 9, 4, i64::MIN, i64::MAX];
    assert_leaving(
        &rt,
        rt.alloc(),
        TWO_STREETS,
        &nodes,
        "3 4 | 0 5 | 1 2 | | | | | ",
    )?;
    assert_leaving(&rt, rt.alloc(), "", &[1], "| ")
}

// Nor does it matter that a barrier closes the node.
#[test]
fn vertices_leave_a_closed_node(rt: HostRuntime) -> Result<(), AllocError> {
    let alloc = rt.alloc();
    let closed = bend(alloc, "barrier=bollard")?;
    assert_leaving(&rt, alloc, closed.as_str(), &[1, 2, 3], "0 | 1 2 | 3 | ")?;
    let crossed = crossing(alloc, "barrier=bollard", "")?;
    assert_leaving(&rt, alloc, crossed.as_str(), &[5, 4], "1 2 4 7 | 6 | ")
}

// Two streets along nodes of these ids.
fn street(alloc: Global, ids: &[i64; 3]) -> Result<String, AllocError> {
    let [first, second, third] = *ids;
    format!(in alloc;
        "n{first} x0 y0\nn{second} x0.001 y0\nn{third} x0.002 y0\nw10 Thighway=residential Nn{first},n{second}\nw11 Thighway=residential Nn{second},n{third}\n"
    )
}

// Whatever the ids of nodes are, and however these are put in order: as one number each where all are from 0 to 2^36.
#[test]
fn vertices_leave_nodes_of_any_ids(rt: HostRuntime) -> Result<(), AllocError> {
    let alloc = rt.alloc();
    let ids = [
        [68719476735, 1, 5],
        [68719476736, 1, 5],
        [-5, 2, -7],
        [i64::MAX, i64::MIN, 0],
    ];
    for nodes in &ids {
        let map = street(alloc, nodes)?;
        assert_leaving(&rt, alloc, map.as_str(), nodes, "0 | 1 2 | 3 | ")?;
    }
    Ok(())
}
