//! What a frame tells of the vertices at the borders of its cells.

use cell_frame::{Cell, Frame};
use small_graphs::{RING_OF_EIGHT, STREETS, frame};
use std::alloc::{AllocError, Global};
use std::process::Abort;
use std::test::Fail;

// Of each vertex its cell of the lowest level, how many arcs out of it are given as those that may leave its cell of this
// level, and its place among the entries of that.
fn borders_told(
    rt: &impl Abort,
    alloc: Global,
    frame: &Frame,
    level: u32,
) -> Result<String, AllocError> {
    assert!(rt; level >= 1 && level <= frame.levels());
    let mut text = String::new(alloc);
    for v in 0..frame.graph().vertices() {
        let (cell, arcs) = (frame.lowest(v), frame.leaving(level, v).len());
        let told = match frame.entry_at(level, v) {
            Some(place) => format!(in alloc; "{cell}:{arcs}/{place} ")?,
            None => format!(in alloc; "{cell}:{arcs}/- ")?,
        };
        text.push_str(told.as_str())?;
    }
    Ok(text)
}

fn assert_borders(
    rt: &impl Abort,
    alloc: Global,
    frame: &Frame,
    level: u32,
    wanted: &str,
) -> Result<(), AllocError> {
    let told = borders_told(rt, alloc, frame, level)?;
    assert_eq!(rt; told.as_str(), wanted);
    Ok(())
}

// Each street is a cell of level 1, left by one of its ways and entered by the other.
#[test]
fn arcs_that_stay_in_a_street_are_left_out(rt: HostRuntime) -> Result<(), Fail> {
    let alloc = rt.alloc();
    let frame = frame(alloc, &STREETS, &[2, 4])?;
    Ok(assert_borders(&rt, alloc, &frame, 1, "0:1/- 0:0/0 1:0/0 1:1/- ")?)
}

// Both streets are one cell of level 2, which nothing leaves.
#[test]
fn no_arc_leaves_both_streets(rt: HostRuntime) -> Result<(), Fail> {
    let alloc = rt.alloc();
    let frame = frame(alloc, &STREETS, &[2, 4])?;
    Ok(assert_borders(&rt, alloc, &frame, 2, "0:0/- 0:0/- 1:0/- 1:0/- ")?)
}

// Of each exit of each cell of this level how many arcs lead on from it, or `-` where it is an entry too.
fn exits_told(
    rt: &impl Abort,
    alloc: Global,
    frame: &Frame,
    level: u32,
) -> Result<String, AllocError> {
    assert!(rt; level >= 1 && level <= frame.levels());
    let mut text = String::new(alloc);
    for number in 0..frame.count(level) {
        let cell = Cell { level, number };
        for (place, exit) in frame.exits(cell).iter().enumerate() {
            let told = match frame.lead(cell, place) {
                Some(arcs) => format!(in alloc; "{exit}:{} ", arcs.len())?,
                None => format!(in alloc; "{exit}:- ")?,
            };
            text.push_str(told.as_str())?;
        }
    }
    Ok(text)
}

// Each street is left by one of its ways, which isn't the one that enters it.
#[test]
fn exits_of_streets_lead_on(rt: HostRuntime) -> Result<(), Fail> {
    let alloc = rt.alloc();
    let frame = frame(alloc, &STREETS, &[2, 4])?;
    let told = exits_told(&rt, alloc, &frame, 1)?;
    assert_eq!(rt; told.as_str(), "0:1 3:1 ");
    Ok(())
}

// Cells of two along a ring: 2, 4 and 7 are entered too, and two arcs lead on from 5.
#[test]
fn exits_that_are_entries_too_lead_on_by_their_rows(rt: HostRuntime) -> Result<(), Fail> {
    let alloc = rt.alloc();
    let frame = frame(alloc, &RING_OF_EIGHT, &[2, 4])?;
    let told = exits_told(&rt, alloc, &frame, 1)?;
    assert_eq!(rt; told.as_str(), "1:1 2:- 3:1 4:- 5:2 7:- ");
    Ok(())
}
