//! The cells of a level that a change touches.

ghost use Rattle.std.specs.Prelude.{◌<◌, ◌≤◌, [], length, All, IfOk};
ghost use Rattle.cell_recustomize.specs.Making.{AreMarked};

use cell_frame::Frame;
use std::alloc::{AllocError, Global};

/// The vertices and the arcs whose costs changed.
#[derive(Clone, Copy)]
pub struct Changes<'a> {
    pub vertices: &'a [u32],
    pub arcs: &'a [u32],
}

// Marks the cells that hold one of the vertices.
fn mark_vertices(marks: &mut [bool], frame: &Frame, level: u32, vertices: &[u32])
    requires above { 1 ≤ level }
    requires below { level ≤ length frame.now.cells.levels }
    requires vertices { All (λ v. v < frame.now.graph.vertices) vertices.now }
    requires none { AreMarked frame.now [] [] level marks.old }
    ensures { AreMarked frame.now vertices.now [] level marks.new }
{
    frame.known();
    for v in vertices {
        let cell = frame.cell(level, *v);
        marks[cell.number as usize] = true;
    }
}

// Marks the cells that hold both ends of one of the arcs, too.
fn mark_arcs(marks: &mut [bool], frame: &Frame, level: u32, changes: Changes)
    requires above { 1 ≤ level }
    requires below { level ≤ length frame.now.cells.levels }
    requires arcs { All (λ i. i < length frame.now.graph.arcs) changes.arcs.now }
    requires so_far { AreMarked frame.now changes.vertices.now [] level marks.old }
    ensures { AreMarked frame.now changes.entry.vertices.now changes.entry.arcs.now level marks.new }
{
    frame.known();
    for i in changes.arcs {
        let (tail, head) = frame.graph().arc(*i);
        let cell = frame.cell(level, tail);
        if cell.number == frame.cell(level, head).number {
            marks[cell.number as usize] = true;
        }
    }
}

/// Marks those cells of a level that the changes touch.
pub fn marks_of(
    alloc: Global,
    frame: &Frame,
    level: u32,
    changes: Changes,
) -> Result<Vec<bool>, AllocError>
    requires above { 1 ≤ level }
    requires below { level ≤ length frame.now.cells.levels }
    requires vertices { All (λ v. v < frame.now.graph.vertices) changes.vertices.now }
    requires arcs { All (λ i. i < length frame.now.graph.arcs) changes.arcs.now }
    ensures { IfOk result (λ marks. AreMarked frame.now changes.entry.vertices.now changes.entry.arcs.now level marks.items) }
{
    let mut marks = vec![in alloc; false; frame.count(level) as usize]?;
    mark_vertices(&mut marks, frame, level, changes.vertices);
    mark_arcs(&mut marks, frame, level, changes);
    Ok(marks)
}
