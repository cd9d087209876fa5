//! The cells of worked towns, and what walks cost inside them; the values are worked out by hand from this
//! project's rules.

ghost use Rattle.std.specs.Prelude.{◌<◌, ◌≤◌, All, length};
ghost use Rattle.std.specs.List.Sorted.{IsStrictlyIncreasing};
ghost use Rattle.cell_frame.specs.Borders.{IsCell, at_cell};

use cell_frame::Cell;
use cost_texts::{row_told, vertices_told};
use customized::{Metric, Roads, Under};
use small_towns::{CAR, bend, network_of, to_and_fro};
use std::alloc::{AllocError, Global};
use std::process::Abort;
use std::thread::Threads;

// What the walks cost inside a cell from its entry at this place to each exit.
fn entry_told(alloc: Global, under: &Under<'_>, cell: Cell, i: usize) -> Result<String, AllocError>
    requires cell { IsCell under.now.frame.cells cell }
    requires entry { i < length (at_cell under.now.frame.entries cell) }
{
    let row = under.cliques().row(under.frame(), cell, i);
    row_told(alloc, &row)
}

// The entries of a cell, its exits, and what the walks between them cost inside it.
fn cell_told(alloc: Global, under: &Under<'_>, cell: Cell) -> Result<String, AllocError>
    requires { IsCell under.now.frame.cells cell }
{
    let entries = under.frame().entries(cell);
    let mut text = vertices_told(alloc, entries)?;
    text.push_str("to ")?;
    text.push_str(vertices_told(alloc, under.frame().exits(cell))?.as_str())?;
    for i in 0..entries.len() {
        text.push_str(entry_told(alloc, under, cell, i)?.as_str())?;
    }
    Ok(text)
}

// The cell of each vertex at a level, and what each cell is.
fn level_told(alloc: Global, under: &Under<'_>, level: u32) -> Result<String, AllocError>
    requires above { 1 ≤ level }
    requires below { level ≤ length under.now.frame.cells.levels }
{
    let mut text = String::new(alloc);
    for v in 0..under.frame().graph().vertices() {
        let number = under.frame().cell(level, v).number;
        text.push_str(format!(in alloc; "{number} ")?.as_str())?;
    }
    for number in 0..under.frame().count(level) {
        text.push_str("| ")?;
        text.push_str(cell_told(alloc, under, Cell { level, number })?.as_str())?;
    }
    Ok(text)
}

/// All levels of a metric, the lowest first.
pub fn told(alloc: Global, under: &Under<'_>) -> Result<String, AllocError> {
    let mut text = String::new(alloc);
    for below in 0..under.frame().levels() {
        text.push_str(level_told(alloc, under, below + 1)?.as_str())?;
        text.push_str("; ")?;
    }
    Ok(text)
}

/// The metric of roads by the settings alone, in a box.
pub fn boxed_metric(
    rt: &(impl Threads + Sync),
    alloc: Global,
    roads: &Roads,
) -> Result<Box<Metric>, AllocError> {
    let base = roads.base().copy()?;
    let metric = Metric::make(rt, alloc, roads, base)?;
    Ok(Box::new(alloc, metric)?)
}

/// The roads of a map under these settings, cut into cells by these limits, in a box.
pub fn boxed_roads(
    alloc: Global,
    map: &str,
    settings: &str,
    limits: &[u32],
) -> Result<Box<Roads>, AllocError>
    requires ascending { IsStrictlyIncreasing limits.now }
    requires some { All (λ limit. 1 ≤ limit) limits.now }
{
    let Ok(network) = network_of(alloc, map, settings) else {
        return Err(AllocError);
    };
    let roads = Roads::of(alloc, Box::into_inner(network), limits)?;
    Ok(Box::new(alloc, roads)?)
}

/// The metric of a map by the settings alone, cut into cells by these limits.
pub fn customized(
    rt: &(impl Threads + Sync),
    alloc: Global,
    map: &str,
    limits: &[u32],
) -> Result<Box<Metric>, AllocError>
    requires ascending { IsStrictlyIncreasing limits.now }
    requires some { All (λ limit. 1 ≤ limit) limits.now }
{
    let roads = boxed_roads(alloc, map, CAR, limits)?;
    boxed_metric(rt, alloc, &roads)
}

/// Asserts what all levels of a metric are.
pub fn assert_told(
    rt: &impl Abort,
    alloc: Global,
    metric: &Metric,
    want: &str,
) -> Result<(), AllocError> {
    let got = told(alloc, &metric.under(None))?;
    assert_eq!(rt; got.as_str(), want);
    Ok(())
}

// Asserts what the metric of a map is, cut into cells by these limits.
fn assert_cut(
    rt: &(impl Threads + Abort + Sync),
    alloc: Global,
    map: &str,
    limits: &[u32],
    want: &str,
) -> Result<(), AllocError>
    requires ascending { IsStrictlyIncreasing limits.now }
    requires some { All (λ limit. 1 ≤ limit) limits.now }
{
    let metric = customized(rt, alloc, map, limits)?;
    assert_told(rt, alloc, &metric, want)
}

// Two streets that meet at a bend. A way into a street and out again turns back at its end. Above both streets
// nothing is entered or left.
#[test]
fn a_way_into_a_street_turns_back_at_its_end(rt: HostRuntime) -> Result<(), AllocError> {
    let alloc = rt.alloc();
    let map = bend(alloc, "")?;
    let one = "0 0 1 1 | 1 to 0 299/299/1111 | 2 to 3 299/299/1111 ; ";
    assert_cut(&rt, alloc, map.as_str(), &[2], one)?;
    let two = "0 0 1 1 | 1 to 0 299/299/1111 | 2 to 3 299/299/1111 ; 0 0 0 0 | to ; ";
    assert_cut(&rt, alloc, map.as_str(), &[2, 4], two)
}

/// A street round a block, one way. Segment 3 lies in the west, segment 1 in the east.
pub const RING: &str = "n1 x0 y0
n2 x0.001 y0
n3 x0.001 y0.001
n4 x0 y0.001
w20 Thighway=residential,oneway=yes Nn1,n2,n3,n4,n1";

// Each cell is entered and left by one vertex, and to stay there costs nothing.
#[test]
fn a_street_round_a_block_is_cut_by_its_segments(rt: HostRuntime) -> Result<(), AllocError> {
    let want =
        "2 3 6 7 4 5 0 1 | 6 to 6 0/0/0 | to | 0 to 0 0/0/0 | to | 4 to 4 0/0/0 | to | 2 to 2 0/0/0 | to ; 1 1 3 3 2 2 0 0 | 6 to 6 0/0/0 | 0 to 0 0/0/0 | 4 to 4 0/0/0 | 2 to 2 0/0/0 ; ";
    assert_cut(&rt, rt.alloc(), RING, &[1, 2], want)
}

// Asserts which parts the metric of the bend gives.
fn assert_parts(rt: &impl Abort, metric: &Metric) {
    metric.kin(metric);
    let under = metric.under(None);
    assert_eq!(rt;
        (under.network().segments(), under.network().turns()),
        (2, 4)
    );
    assert_eq!(rt; under.frame().levels(), 1);
    assert_eq!(rt; metric.network().segments(), 2);
}

// What an answer is given is the metric's own.
#[test]
fn an_answer_is_given_the_metrics_own_parts(rt: HostRuntime) -> Result<(), AllocError> {
    let alloc = rt.alloc();
    let map = bend(alloc, "")?;
    let metric = customized(&rt, alloc, map.as_str(), &[2])?;
    assert_parts(&rt, &metric);
    Ok(())
}

// Asserts how many levels a server cuts a way of so many segments into, each of which has two vertices.
fn assert_levels(
    rt: &impl Abort,
    alloc: Global,
    segments: usize,
    want: u32,
) -> Result<(), AllocError> {
    let map = to_and_fro(alloc, segments)?;
    let Ok(network) = network_of(alloc, map.as_str(), CAR) else {
        return Err(AllocError);
    };
    let roads = Roads::for_server(alloc, Box::into_inner(network))?;
    assert_eq!(rt; roads.frame().levels(), want);
    Ok(())
}

// A cell of the lowest level may hold 256 vertices, and a level of one cell isn't made.
#[test]
fn a_server_makes_no_level_of_one_cell(rt: HostRuntime) -> Result<(), AllocError> {
    let alloc = rt.alloc();
    assert_levels(&rt, alloc, 128, 0)?;
    assert_levels(&rt, alloc, 129, 1)
}
