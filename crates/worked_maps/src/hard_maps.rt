//! Networks of maps made to be hard: a way to and fro between two nodes, where each pair of its vertices
//! meets, and a star of many streets. Expected values are from this project's rules, worked out by hand.

use crate::networks::assert_leaving;
use small_towns::{CAR, network_of, to_and_fro};
use std::alloc::{AllocError, Global};
use std::process::Abort;

// Way 1 has 200 segments to and fro between nodes 1 and 2; way 2 leads from node 1 to a dead end, way 3 from node 2.
fn streets(alloc: Global) -> Result<String, AllocError> {
    let mut text = to_and_fro(alloc, 200)?;
    text.push_str(
        "\nn3 x0 y0.001\nn4 x0.001 y0.001\nw2 Thighway=residential Nn1,n3\nw3 Thighway=residential Nn2,n4\n",
    )?;
    Ok(text)
}

// Adds fifty restrictions of this value from way 1 over a node to a way, numbered from here on.
fn restrict(
    alloc: Global,
    text: &mut String,
    first: u32,
    value: &str,
    members: &str,
) -> Result<(), AllocError> {
    for i in 0..50 {
        let tags = "Ttype=restriction,restriction=";
        let line = format!(in alloc; "r{first}{i} {tags}{value} Mw1@from,{members}\n")?;
        text.push_str(line.as_str())?;
    }
    Ok(())
}

// Asserts how many turns the network of a map has.
fn assert_turn_count(
    rt: &impl Abort,
    alloc: Global,
    map: &str,
    want: u32,
) -> Result<(), AllocError> {
    let Ok(network) = network_of(alloc, map, CAR) else {
        return Err(AllocError);
    };
    assert_eq!(rt; network.turns(), want);
    Ok(())
}

// From way 1 each of 200 vertices at each node may go on to any other but its own way back, from ways 2
// and 3 to 200, and these turn back at their ends. Without restrictions that are 2 * 200 * 200 + 2 * 200 +
// 2. Those onto way 1 fall away from way 1, whether all of them are forbidden or only the others are
// allowed; and all at node 1 where two restrictions each allow another way only.
#[test]
fn restrictions_of_a_way_to_and_fro(rt: HostRuntime) -> Result<(), AllocError> {
    let alloc = rt.alloc();
    let mut map = streets(alloc)?;
    assert_turn_count(&rt, alloc, map.as_str(), 80_402)?;
    restrict(alloc, &mut map, 1, "no_left_turn", "n1@via,w1@to")?;
    assert_turn_count(&rt, alloc, map.as_str(), 40_602)?;
    restrict(alloc, &mut map, 2, "only_straight_on", "n2@via,w3@to")?;
    assert_turn_count(&rt, alloc, map.as_str(), 802)?;
    restrict(alloc, &mut map, 3, "only_straight_on", "n1@via,w2@to")?;
    assert_turn_count(&rt, alloc, map.as_str(), 802)?;
    restrict(alloc, &mut map, 4, "only_straight_on", "n1@via,w1@to")?;
    assert_turn_count(&rt, alloc, map.as_str(), 602)
}

// A star: from its middle, node 1, a street leads to each node from 2 up to 1001.
fn star(alloc: Global) -> Result<String, AllocError> {
    let mut text = String::from_str(alloc, "n1 x0 y0\n")?;
    for node in 2..1002 {
        let line = format!(in alloc;
            "n{node} x0.001 y0\nw{node} Thighway=residential Nn{node},n1\n"
        )?;
        text.push_str(line.as_str())?;
    }
    Ok(text)
}

// The numbers 1, 3, 5 and so on of its streets back from the middle.
fn rays(alloc: Global) -> Result<String, AllocError> {
    let mut text = String::new(alloc);
    for v in 1..2000 {
        if v % 2 == 1 {
            text.push_str(format!(in alloc; "{v} ")?.as_str())?;
        }
    }
    Ok(text)
}

#[test]
fn a_star_is_left_by_each_of_its_streets(rt: HostRuntime) -> Result<(), AllocError> {
    let alloc = rt.alloc();
    let map = star(alloc)?;
    let all = rays(alloc)?;
    let want = format!(in alloc; "{all}| 0 | 1998 | | ")?;
    assert_leaving(&rt, alloc, map.as_str(), &[1, 2, 1001, 1002], want.as_str())
}
