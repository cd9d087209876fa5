//! What walks cost inside cells, for given weights and for changed ones.

ghost use Rattle.std.specs.Prelude.{◌≡◌, length, IfOk};
ghost use Rattle.search_graph.specs.RoadCosts.{road_cost_ops};
ghost use Rattle.search_graph.specs.Weighted.{AreSmall};
ghost use Rattle.cell_frame.specs.Cliqued.{AreExact};

use cell_customize::{customize, customize_in_threads};
use cell_frame::{Cliques, Frame};
use cell_recustomize::{Recustomized, changed, recustomize, recustomize_in_threads};
use cost_texts::row_told;
use search_graph::{WeightDurLen, Weights};
use small_graphs::{Drawing, STREETS, frame, weights};
use std::alloc::{AllocError, Global};
use std::process::Abort;
use std::test::Fail;
use std::thread::Threads;

// What the walks cost inside the cell of this level that holds an entry, from there to each exit.
fn walks_told(
    rt: &impl Abort,
    alloc: Global,
    frame: &Frame,
    cliques: &Cliques<WeightDurLen>,
    level: u32,
    entry: u32,
) -> Result<String, AllocError>
    requires { (w : _) × AreExact road_cost_ops frame.now w cliques.now (length frame.now.cells.levels) }
{
    assert!(rt; level >= 1 && level <= frame.levels() && entry < frame.graph().vertices());
    let cell = frame.cell(level, entry);
    let Some(place) = frame.entry(cell, entry) else {
        return String::from_str(alloc, "no entry");
    };
    row_told(alloc, &cliques.row(frame, cell, place))
}

// Each way of a street is a cell of level 1, in which nothing is paid, and the street is one of level 2: a way into it and out
// again turns back at its end.
fn turns_back(
    rt: &impl Abort,
    alloc: Global,
    frame: &Frame,
    cliques: &Cliques<WeightDurLen>,
) -> Result<(), AllocError>
    requires { (w : _) × AreExact road_cost_ops frame.now w cliques.now (length frame.now.cells.levels) }
{
    assert_eq!(rt;
        walks_told(rt, alloc, frame, cliques, 1, 1)?.as_str(),
        "0/0/0 "
    );
    assert_eq!(rt;
        walks_told(rt, alloc, frame, cliques, 2, 1)?.as_str(),
        "299/299/1111 "
    );
    assert_eq!(rt;
        walks_told(rt, alloc, frame, cliques, 2, 2)?.as_str(),
        "299/299/1111 "
    );
    Ok(())
}

// The cliques of the two streets.
fn of_streets(alloc: Global, frame: &Frame) -> Result<Cliques<WeightDurLen>, AllocError>
    ensures { IfOk result (λ cliques. (w : _) × AreExact road_cost_ops frame.now w cliques (length frame.now.cells.levels)) }
{
    let weights = weights(alloc, frame.graph(), &STREETS)?;
    customize(alloc, frame, &weights)
}

// The same by threads.
fn of_streets_in_threads(
    rt: &(impl Threads + Sync),
    alloc: Global,
    frame: &Frame,
) -> Result<Cliques<WeightDurLen>, AllocError>
    ensures { IfOk result (λ cliques. (w : _) × AreExact road_cost_ops frame.now w cliques (length frame.now.cells.levels)) }
{
    let weights = weights(alloc, frame.graph(), &STREETS)?;
    customize_in_threads(rt, alloc, frame, &weights)
}

// Both, by one thread and by several.
fn street_turns_back(rt: &impl Abort, alloc: Global, frame: &Frame) -> Result<(), AllocError> {
    let cliques = of_streets(alloc, frame)?;
    turns_back(rt, alloc, frame, &cliques)
}

fn street_turns_back_in_threads(
    rt: &(impl Abort + Threads + Sync),
    alloc: Global,
    frame: &Frame,
) -> Result<(), AllocError> {
    let cliques = of_streets_in_threads(rt, alloc, frame)?;
    turns_back(rt, alloc, frame, &cliques)
}

fn streets_turn_back(
    rt: &(impl Abort + Threads + Sync),
    alloc: Global,
    frame: &Frame,
) -> Result<(), AllocError> {
    street_turns_back(rt, alloc, frame)?;
    street_turns_back_in_threads(rt, alloc, frame)
}

#[test]
fn a_way_into_a_street_turns_back_at_its_end(rt: HostRuntime) -> Result<(), Fail> {
    let alloc = rt.alloc();
    let frame = frame(alloc, &STREETS, &[1, 2])?;
    Ok(streets_turn_back(&rt, alloc, &frame)?)
}

// The cliques for new weights, from those for old ones.
fn brought_up(
    alloc: Global,
    frame: &Frame,
    old: &Weights<WeightDurLen>,
    new: &Weights<WeightDurLen>,
) -> Result<Recustomized<WeightDurLen>, AllocError>
    requires old { AreSmall road_cost_ops frame.now.graph old.now }
    requires new { AreSmall road_cost_ops frame.now.graph new.now }
    ensures { IfOk result (λ made. AreExact road_cost_ops frame.now new.now made.cliques (length frame.now.cells.levels)) }
{
    let cliques = customize(alloc, frame, old)?;
    let places = changed(alloc, frame.graph(), old, new)?;
    let vertices = places.vertices.as_slice();
    let arcs = places.arcs.as_slice();
    recustomize(alloc, frame, new, &cliques, vertices, arcs)
}

// The same by threads.
fn brought_up_in_threads(
    rt: &(impl Threads + Sync),
    alloc: Global,
    frame: &Frame,
    old: &Weights<WeightDurLen>,
    new: &Weights<WeightDurLen>,
) -> Result<Recustomized<WeightDurLen>, AllocError>
    requires old { AreSmall road_cost_ops frame.now.graph old.now }
    requires new { AreSmall road_cost_ops frame.now.graph new.now }
    ensures { IfOk result (λ made. AreExact road_cost_ops frame.now new.now made.cliques (length frame.now.cells.levels)) }
{
    let cliques = customize(alloc, frame, old)?;
    let places = changed(alloc, frame.graph(), old, new)?;
    let vertices = places.vertices.as_slice();
    let arcs = places.arcs.as_slice();
    recustomize_in_threads(rt, alloc, frame, new, &cliques, vertices, arcs)
}

// The cliques of the two streets after their costs changed to those of a drawing.
fn after(
    alloc: Global,
    frame: &Frame,
    drawing: &Drawing,
) -> Result<Recustomized<WeightDurLen>, AllocError>
    ensures { IfOk result (λ made. (w : _) × AreExact road_cost_ops frame.now w made.cliques (length frame.now.cells.levels)) }
{
    let graph = frame.graph();
    let before = weights(alloc, graph, &STREETS)?;
    let after = weights(alloc, graph, drawing)?;
    brought_up(alloc, frame, &before, &after)
}

// The same by threads.
fn after_in_threads(
    rt: &(impl Threads + Sync),
    alloc: Global,
    frame: &Frame,
    drawing: &Drawing,
) -> Result<Recustomized<WeightDurLen>, AllocError>
    ensures { IfOk result (λ made. (w : _) × AreExact road_cost_ops frame.now w made.cliques (length frame.now.cells.levels)) }
{
    let graph = frame.graph();
    let before = weights(alloc, graph, &STREETS)?;
    let after = weights(alloc, graph, drawing)?;
    brought_up_in_threads(rt, alloc, frame, &before, &after)
}

/// The two streets with the first way slower.
const SLOWER: Drawing = Drawing {
    vertex_costs: "199/1111 99/1111 99/1111 99/1111",
    ..STREETS
};

/// The two streets with a dearer turn from the first into the second.
const DEARER: Drawing = Drawing {
    arc_costs: "100/0 0/0 200/0 200/0",
    ..STREETS
};

// How many searches there were, and what the walks cost inside both streets from where each is entered.
fn streets_told(
    rt: &impl Abort,
    alloc: Global,
    frame: &Frame,
    made: &Recustomized<WeightDurLen>,
) -> Result<String, AllocError>
    requires { (w : _) × AreExact road_cost_ops frame.now w made.now.cliques (length frame.now.cells.levels) }
{
    let mut text = format!(in alloc; "{}: ", made.searches)?;
    text.push_str(walks_told(rt, alloc, frame, &made.cliques, 1, 1)?.as_str())?;
    text.push_str(walks_told(rt, alloc, frame, &made.cliques, 1, 2)?.as_str())?;
    Ok(text)
}

// Asserts what `streets_told` says of a frame.
fn assert_told(
    rt: &impl Abort,
    alloc: Global,
    frame: &Frame,
    made: &Recustomized<WeightDurLen>,
    wanted: &str,
) -> Result<(), AllocError>
    requires { (w : _) × AreExact road_cost_ops frame.now w made.now.cliques (length frame.now.cells.levels) }
{
    let told = streets_told(rt, alloc, frame, made)?;
    assert_eq!(rt; told.as_str(), wanted);
    Ok(())
}

fn assert_after(
    rt: &impl Abort,
    alloc: Global,
    frame: &Frame,
    drawing: &Drawing,
    wanted: &str,
) -> Result<(), AllocError> {
    let made = after(alloc, frame, drawing)?;
    assert_told(rt, alloc, frame, &made, wanted)
}

fn assert_after_in_threads(
    rt: &(impl Abort + Threads + Sync),
    alloc: Global,
    frame: &Frame,
    drawing: &Drawing,
    wanted: &str,
) -> Result<(), AllocError> {
    let made = after_in_threads(rt, alloc, frame, drawing)?;
    assert_told(rt, alloc, frame, &made, wanted)
}

#[test]
fn a_slower_way_touches_its_street(rt: HostRuntime) -> Result<(), Fail> {
    let alloc = rt.alloc();
    let frame = frame(alloc, &STREETS, &[2, 4])?;
    Ok(assert_after(&rt, alloc, &frame, &SLOWER, "1: 399/399/1111 299/299/1111 ")?)
}

#[test]
fn a_dearer_turn_between_streets_touches_neither(rt: HostRuntime) -> Result<(), Fail> {
    let alloc = rt.alloc();
    let frame = frame(alloc, &STREETS, &[2, 4])?;
    Ok(assert_after(&rt, alloc, &frame, &DEARER, "0: 299/299/1111 299/299/1111 ")?)
}

#[test]
fn threads_find_what_one_thread_finds(rt: HostRuntime) -> Result<(), Fail> {
    let alloc = rt.alloc();
    let frame = frame(alloc, &STREETS, &[2, 4])?;
    Ok(assert_after_in_threads(&rt, alloc, &frame, &SLOWER, "1: 399/399/1111 299/299/1111 ")?)
}
