//! The arcs that lead from one cell to another, vertex by vertex.

ghost use Rattle.std.specs.Prelude.{◌≡◌, ◌<◌, ◌≤◌, ◌++◌, List, length, OnOk};
ghost use Rattle.cell_frame.specs.Spots.{AreAcross, AreAllAcross};
ghost use Rattle.search_graph.specs.Digraph.{Leaves};

use cell_partition::Cells;
use search_graph::Graph;
use std::alloc::AllocError;

/// An arc that leads from one cell of a level to another, by its number, and where it leads.
#[derive(Clone, Copy, Drop)]
pub struct Crossing {
    pub arc: u32,
    pub head: u32,
}

// Puts an arc out of a vertex behind all others, where it leads to another cell of the level.
fn push_crossing(
    crossings: &mut Vec<Crossing>,
    graph: &Graph,
    cells: &Cells,
    level: u32,
    v: u32,
    arc: u32,
) -> Result<(), AllocError>
    requires above { 1 ≤ level }
    requires below { level ≤ length cells.now.levels }
    requires vertices { cells.now.vertices ≡ graph.now.vertices }
    requires vertex { v < graph.now.vertices }
    requires leaves { Leaves graph.now arc v }
    ensures { OnOk result ((more : List Crossing) × (crossings.new.items ≡ crossings.old.items ++ more) × AreAcross graph.now cells.now level v arc more) }
{
    let (_, head) = graph.arc(arc);
    if cells.cell(level, v) == cells.cell(level, head) {
        return Ok(());
    }
    crossings.push(Crossing { arc, head })?;
    Ok(())
}

/// Puts the arcs out of a vertex that lead to another cell of the level behind all others.
pub fn push_crossings(
    crossings: &mut Vec<Crossing>,
    graph: &Graph,
    cells: &Cells,
    level: u32,
    v: u32,
) -> Result<(), AllocError>
    requires above { 1 ≤ level }
    requires below { level ≤ length cells.now.levels }
    requires vertices { cells.now.vertices ≡ graph.now.vertices }
    requires vertex { v < graph.now.vertices }
    ensures { OnOk result ((more : List Crossing) × (crossings.new.items ≡ crossings.old.items ++ more) × AreAllAcross graph.now cells.now level v more) }
{
    let arcs = graph.out(v);
    for place in 0..arcs.len() {
        push_crossing(crossings, graph, cells, level, v, arcs.get(place))?;
    }
    Ok(())
}
