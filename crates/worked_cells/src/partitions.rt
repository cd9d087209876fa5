//! What no clause says: that calls succeed where memory is ample, and that the cells are those that a reader of the rule
//! finds by hand.

ghost use Rattle.std.specs.Prelude.{◌≤◌, length, All};
ghost use Rattle.std.specs.List.Sorted.{IsStrictlyIncreasing};

use cell_partition::{Cells, PartitionError, cells};
use cost_texts::vertices_told;
use small_graphs::cells_of;
use std::alloc::{AllocError, Global};
use std::process::Abort;
use std::test::Fail;

// The cell of each vertex in a level.
fn level_told(alloc: Global, made: &Cells, level: u32) -> Result<String, AllocError>
    requires above { 1 ≤ level }
    requires below { level ≤ length made.now.levels }
{
    let mut text = String::new(alloc);
    for vertex in 0..made.vertices() {
        text.push_str(format!(in alloc; "{} ", made.cell(level, vertex))?.as_str())?;
    }
    Ok(text)
}

// The same in each level, the lowest first, with a bar behind each.
fn levels_told(alloc: Global, made: &Cells) -> Result<String, AllocError> {
    let mut text = String::new(alloc);
    for below in 0..made.levels() {
        text.push_str(level_told(alloc, made, below + 1)?.as_str())?;
        text.push_str("| ")?;
    }
    Ok(text)
}

// The same of places that are cut.
fn cut_told(alloc: Global, places: &str, limits: &[u32]) -> Result<String, PartitionError>
    requires ascending { IsStrictlyIncreasing limits.now }
    requires some { All (λ limit. 1 ≤ limit) limits.now }
{
    let made = cells_of(alloc, places, limits)?;
    Ok(levels_told(alloc, &made)?)
}

// Both directions of a segment lie at its midpoint: two streets that meet at a corner.
#[test]
fn two_segments_make_two_cells_below_one(rt: HostRuntime) -> Result<(), Fail> {
    let places = "0,1000 0,1000 1000,2000 1000,2000";
    let told = cut_told(rt.alloc(), places, &[2, 4])?;
    assert_eq!(rt; told.as_str(), "0 0 1 1 | 0 0 0 0 | ");
    Ok(())
}

// How many cells a level has, and the vertices of the one that holds a vertex.
fn cell_told(
    rt: &impl Abort,
    alloc: Global,
    made: &Cells,
    level: u32,
    vertex: u32,
) -> Result<String, AllocError> {
    assert!(rt; 1 <= level && level <= made.levels() && vertex < made.vertices());
    let members = vertices_told(alloc, made.members(level, made.cell(level, vertex)))?;
    format!(in alloc; "{}: {}", made.count(level), members)
}

// What is told of places that are cut, by level, and of the cell of vertex 0 in the second.
fn square_told(rt: &impl Abort, alloc: Global, made: &Cells) -> Result<String, AllocError> {
    let mut text = levels_told(alloc, made)?;
    text.push_str(cell_told(rt, alloc, made, 2, 0)?.as_str())?;
    Ok(text)
}

/// A square of four segments, at its corners' halfway points. Their widths are equal, so that the longitude comes first.
const SQUARE: &str = "1000,0 1000,0 2000,1000 2000,1000 1000,2000 1000,2000 0,1000 0,1000";

#[test]
fn a_square_is_halved_by_longitude(rt: HostRuntime) -> Result<(), Fail> {
    let made = cells_of(rt.alloc(), SQUARE, &[1, 2])?;
    let told = square_told(&rt, rt.alloc(), &made)?;
    let want = "2 3 6 7 4 5 0 1 | 1 1 3 3 2 2 0 0 | 4: 0 1 ";
    assert_eq!(rt; told.as_str(), want);
    Ok(())
}

/// Three places each, and the cell of each, with an equals sign between.
const HALVES: &str = "0,0 10,1 20,2=0 0 1 | ;20,2 10,1 0,0=1 0 0 | ;0,5 1,0 2,9=0 0 1 | ;\
    0,9 1,0 2,5=1 0 0 | ;7,7 7,7 7,7=0 0 1 | ;-2147483648,0 2147483647,0 0,2147483647=0 1 0 | ";

#[test]
fn the_first_half_is_the_larger_by_the_wider_axis(rt: HostRuntime) -> Result<(), Fail> {
    for case in HALVES.split(';') {
        let mut parts = case.split('=');
        let (Some(places), Some(want)) = (parts.next(), parts.next()) else {
            panic!(rt; "places and their cells");
        };
        let told = cut_told(rt.alloc(), places, &[2])?;
        assert_eq!(rt; told.as_str(), want, "at {places}");
    }
    Ok(())
}

// How many levels there are, and how many cells in each.
fn counts_told(alloc: Global, made: &Cells) -> Result<String, AllocError> {
    let mut text = format!(in alloc; "{}: ", made.levels())?;
    for below in 0..made.levels() {
        text.push_str(format!(in alloc; "{} ", made.count(below + 1))?.as_str())?;
    }
    Ok(text)
}

#[test]
fn no_limit_makes_no_level_and_no_vertex_one_cell(rt: HostRuntime) -> Result<(), Fail> {
    let none = counts_told(rt.alloc(), &cells(rt.alloc(), &[(1, 1)], &[])?)?;
    assert_eq!(rt; none.as_str(), "0: ");
    let empty = counts_told(rt.alloc(), &cells(rt.alloc(), &[], &[3])?)?;
    assert_eq!(rt; empty.as_str(), "1: 1 ");
    Ok(())
}
