//! The table of turns: what a driver is told where ways meet. Each turn is drawn as a map of its own.

use crate::towns::{Asked, BARRED, SETTINGS, Town, ask};
use reply_core::ReplyFault;
use std::alloc::{AllocError, Global};
use std::process::Abort;
use std::thread::Threads;

// Each bend, where the way behind it leads (longitude and latitude), and what is told of it where several ways lead on:
// onto a road of the same name, and of another. Nothing is told where a bar stands.
const BENDS: &str = "straight|0.01|0.011|-|new name
slight right|0.0105|0.010866|continue|new name
right|0.011|0.01|continue|turn
sharp right|0.0105|0.009134|continue|turn
uturn|0.01|0.0095|continue|turn
sharp left|0.0095|0.009134|continue|turn
left|0.009|0.01|continue|turn
slight left|0.0095|0.010866|continue|new name";

// The way that leads on beside the one that is taken.
const BESIDE: &str = "\nn4 x0.0108 y0.0106\nw20 Thighway=residential,name=C Nn2,n4";

// A bend, and where the way behind it leads.
#[derive(Clone, Copy)]
struct Bend<'a> {
    modifier: &'a str,
    lon: &'a str,
    lat: &'a str,
}

// Asserts that a text tells of a turn with this bend, as this kind of maneuver; or of none.
fn assert_maneuver(
    rt: &impl Abort,
    alloc: Global,
    text: &str,
    kind: &str,
    modifier: &str,
) -> Result<(), AllocError> {
    if kind == "-" {
        assert!(rt; !text.contains("\"modifier\""), "{modifier}");
        return Ok(());
    }
    let told = format!(in alloc; "\"type\":\"{kind}\",\"modifier\":\"{modifier}\"")?;
    assert!(rt; text.contains(told.as_str()), "{told}");
    Ok(())
}

// Asserts what is told where a road A comes from the south, and bends so onto a road of this name, with these lines of
// the map behind them.
fn assert_bend(
    rt: &(impl Threads + Abort + Sync),
    alloc: Global,
    bend: Bend<'_>,
    onto: (&str, &str),
    kind: &str,
) -> Result<(), ReplyFault> {
    let (name, more) = onto;
    let (lon, lat) = (bend.lon, bend.lat);
    let map = format!(in alloc;
        "n1 x0.01 y0.009\nn2 x0.01 y0.01\nn3 x{lon} y{lat}\nw10 Thighway=residential,name=A Nn1,n2\nw5 Thighway=residential,name={name} Nn2,n3{more}"
    )?;
    let target = format!(in alloc; "/route/v1/car/0.01,0.009;{lon},{lat}?steps=true")?;
    let town = Town {
        map: map.as_str(),
        settings: SETTINGS,
    };
    let answer = ask(rt, alloc, town, Asked::Target(target.as_str()))?;
    assert_maneuver(rt, alloc, answer.text.as_str(), kind, bend.modifier)?;
    Ok(())
}

// Asserts a bend: where several ways lead on, and where one does.
fn assert_bends(
    rt: &(impl Threads + Abort + Sync),
    alloc: Global,
    bend: Bend<'_>,
    same_name: &str,
    other_name: &str,
) -> Result<(), ReplyFault> {
    assert_bend(rt, alloc, bend, ("A", BESIDE), same_name)?;
    assert_bend(rt, alloc, bend, ("B", BESIDE), other_name)?;
    assert_bend(rt, alloc, bend, ("A", ""), "-")?;
    assert_bend(rt, alloc, bend, ("B", ""), "new name")
}

// Asserts a row of bends.
fn assert_row(
    rt: &(impl Threads + Abort + Sync),
    alloc: Global,
    row: &str,
) -> Result<(), ReplyFault> {
    let mut parts = row.split('|');
    let bend = match (parts.next(), parts.next(), parts.next()) {
        (Some(modifier), Some(lon), Some(lat)) => Bend { modifier, lon, lat },
        _ => panic!(rt; "a row of five"),
    };
    match (parts.next(), parts.next()) {
        (Some(same_name), Some(other_name)) => {
            assert_bends(rt, alloc, bend, same_name, other_name)
        }
        _ => panic!(rt; "a row of five"),
    }
}

#[test]
fn drivers_are_told_by_the_table_of_turns(rt: HostRuntime) -> Result<(), ReplyFault> {
    for row in BENDS.split('\n') {
        assert_row(&rt, rt.alloc(), row)?;
    }
    Ok(())
}

// Who comes out of the lane has to turn back at the barrier, where several roads would lead on.
#[test]
fn a_turn_back_is_told_as_such(rt: HostRuntime) -> Result<(), ReplyFault> {
    let target = Asked::Target("/route/v1/car/0.011,0.0095;0.01,0.009?steps=true");
    let answer = ask(&rt, rt.alloc(), BARRED, target)?;
    assert_maneuver(&rt, rt.alloc(), answer.text.as_str(), "continue", "uturn")?;
    Ok(())
}
