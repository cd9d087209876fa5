//! The columns of the vertices of a cell.

ghost use Rattle.std.specs.Prelude.{◌<◌, ◌≤◌, length};
ghost use Rattle.search_graph.specs.RoadCosts.{road_cost_ops};
ghost use Rattle.search_graph.specs.Weighted.{AreSmall};
ghost use Rattle.cell_frame.specs.Cliqued.{AreExact};
ghost use Rattle.head_index.specs.ByHead.{AreByHead};

use column_search::{Overlay, column};
use cost_texts::costs_told;
use head_index::HeadIndex;
use search_graph::WeightDurLen;
use small_graphs::{RING_OF_EIGHT, cut};
use std::alloc::{AllocError, Global};
use std::process::Abort;
use std::test::Fail;
use step_search::Search;

// What walks inside the cell of this level that holds a vertex cost from each of its entries to that vertex.
fn column_told(
    alloc: Global,
    overlay: &Overlay<WeightDurLen>,
    level: u32,
    target: u32,
) -> Result<String, AllocError>
    requires weights { AreSmall road_cost_ops overlay.now.frame.now.graph overlay.now.weights.now }
    requires cliques { AreExact road_cost_ops overlay.now.frame.now overlay.now.weights.now overlay.now.cliques.now (length overlay.now.frame.now.cells.levels) }
    requires heads { AreByHead overlay.now.frame.now.graph overlay.now.heads.now }
    requires above { 1 ≤ level }
    requires below { level ≤ length overlay.now.frame.now.cells.levels }
    requires target { target < overlay.now.frame.now.graph.vertices }
{
    overlay.frame.known();
    let cell = overlay.frame.cell(level, target);
    let mut search = Search::new(alloc);
    let costs = column(alloc, overlay, cell, target, &mut search)?;
    costs_told(alloc, costs.as_slice())
}

// The same for each vertex, with a bar behind each.
fn columns_told(
    rt: &impl Abort,
    alloc: Global,
    cut: &small_graphs::Overlay,
    level: u32,
) -> Result<String, AllocError>
    requires small { AreSmall road_cost_ops cut.now.frame.value.graph cut.now.weights.value }
    requires exact { AreExact road_cost_ops cut.now.frame.value cut.now.weights.value cut.now.cliques.value (length cut.now.frame.value.cells.levels) }
{
    assert!(rt; level >= 1 && level <= cut.frame.levels());
    let heads = HeadIndex::of(alloc, cut.frame.graph())?;
    let overlay = Overlay {
        frame: &cut.frame,
        weights: &cut.weights,
        cliques: &cut.cliques,
        heads: &heads,
    };
    let mut text = String::new(alloc);
    for target in 0..overlay.frame.graph().vertices() {
        text.push_str(column_told(alloc, &overlay, level, target)?.as_str())?;
        text.push_str("| ")?;
    }
    Ok(text)
}

// Of the ring's cells of level 2 the first is entered at 0 and 2, and the second at 4 alone: in the first one leads on from 3 to
// none of it, and back from 2 to 0 at 150; in the second 6 is closed, and a way leads past it.
#[test]
fn columns_of_a_ring_in_two_cells(rt: HostRuntime) -> Result<(), Fail> {
    let ring = cut(rt.alloc(), &RING_OF_EIGHT, &[2, 4])?;
    let told = columns_told(&rt, rt.alloc(), &ring, 2)?;
    assert_eq!(rt;
        told.as_str(),
        "0/0/0 160/160/1 | 11/11/1 171/171/2 | 22/22/2 0/0/0 | 33/33/3 11/11/1 | 0/0/0 | 11/11/1 | - | 50/50/8 | "
    );
    Ok(())
}

// Of those of level 1 the first is entered at 0, the second at 2, the third at 4 and the fourth at 6, which is closed, and at 7.
#[test]
fn a_closed_entry_has_no_value(rt: HostRuntime) -> Result<(), Fail> {
    let ring = cut(rt.alloc(), &RING_OF_EIGHT, &[2, 4])?;
    let told = columns_told(&rt, rt.alloc(), &ring, 1)?;
    assert_eq!(rt;
        told.as_str(),
        "0/0/0 | 11/11/1 | 0/0/0 | 11/11/1 | 0/0/0 | 11/11/1 | - - | - 0/0/0 | "
    );
    Ok(())
}
