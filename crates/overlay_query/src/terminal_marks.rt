//! Which cells hold a terminal.

ghost use Rattle.std.specs.Prelude.{◌≡◌, ℕ, ◌<◌, ◌≤◌, Bool, All, length, IfOk, Some};
ghost use Rattle.std.specs.List.{slice_get};
ghost use Rattle.cell_partition.specs.Partition.{level_at, number_of};
ghost use Rattle.cell_frame.specs.Free.{free_level, has_terminal};
ghost use Rattle.cell_frame.specs.PartSpace.{row_name};
ghost use Rattle.overlay_query.specs.TerminalCells.{AreMarksAt, AreTerminalMarks};

use cell_frame::Frame;
use std::alloc::{AllocError, Global};
use std::marker::Model;

/// Whether each cell of a level holds a terminal. Contracts see the list, by the cells' numbers.
pub struct CellMarks {
    marks: Vec<bool>,
}

impl Drop for CellMarks {
    fn drop(self) {
        let CellMarks { marks: _marks } = self;
    }
}

impl Model for CellMarks {
    ghost use Rattle.std.specs.Prelude.{List, Bool};

    ghost Value = { List Bool };

    ghost view = { λ m. m.marks.items };
}

impl CellMarks {
    // Whether the cell of this number holds a terminal, if there is such a cell.
    fn get(&self, number: u32) -> bool
        ensures { (mark : Bool) → slice_get self.now number ≡ Some mark → result ≡ mark }
    {
        match self.marks.get(number as usize) {
            Some(mark) => *mark,
            None => false,
        }
    }
}

// Whether each cell of a level holds one of the vertices.
fn marks_at(
    alloc: Global,
    frame: &Frame,
    level: u32,
    vertices: &[u32],
) -> Result<CellMarks, AllocError>
    requires above { 1 ≤ level }
    requires below { level ≤ length frame.now.cells.levels }
    requires inside { All (λ t. t < frame.now.graph.vertices) vertices.now }
    ensures { IfOk result (AreMarksAt frame.now.cells vertices.now level) }
{
    let mut marks = vec![in alloc; false; frame.count(level) as usize]?;
    for vertex in vertices {
        marks[frame.cell(level, *vertex).number as usize] = true;
    }
    Ok(CellMarks { marks })
}

/// Whether each cell holds one of the terminals: a byte for each cell.
#[derive(Drop)]
pub struct TerminalMarks<'a> {
    /// the terminals
    pub vertices: &'a [u32],
    /// whether each cell holds a terminal, by its number, level by level from the lowest
    pub levels: Vec<CellMarks>,
}

impl<'a> TerminalMarks<'a> {
    /// The marks of these terminals.
    pub fn of(
        alloc: Global,
        frame: &Frame,
        vertices: &'a [u32],
    ) -> Result<TerminalMarks<'a>, AllocError>
        requires { All (λ t. t < frame.now.graph.vertices) vertices.now }
        ensures vertices { IfOk result (λ marks. marks.vertices.now ≡ vertices.now) }
        ensures cells { IfOk result (λ marks. AreTerminalMarks frame.now vertices.now marks.levels.items) }
    {
        let mut levels = Vec::with_capacity(alloc, frame.levels() as usize)?;
        for below in 0..frame.levels() {
            let marks = marks_at(alloc, frame, below + 1, vertices)?;
            levels.push(marks)?;
        }
        Ok(TerminalMarks { vertices, levels })
    }

    // Whether a cell of a level holds a terminal, if there is such a cell.
    fn is_marked(&self, frame: &Frame, level: u32, number: u32) -> bool
        requires ready { AreTerminalMarks frame.now self.now.vertices.now self.now.levels.items }
        requires above { 1 ≤ level }
        requires below { level ≤ length frame.now.cells.levels }
        ensures { (v : ℕ) → v < frame.now.graph.vertices → number ≡ number_of (level_at frame.now.cells level) v → result ≡ has_terminal frame.now.cells self.now.vertices.now level v }
    {
        frame.known();
        self.levels[level as usize - 1].get(number)
    }

    /// The name of the part that holds the vertices of a cell of the lowest level: the level and the number of the highest cell
    /// that holds them and no terminal, or twice 0 where there is none.
    pub fn name(&self, frame: &Frame, lowest: u32) -> (u32, u32)
        requires ready { AreTerminalMarks frame.now self.now.vertices.now self.now.levels.items }
        requires some { 1 ≤ length frame.now.cells.levels }
        requires lowest { lowest < length (level_at frame.now.cells 1) }
        ensures { (v : ℕ) → v < frame.now.graph.vertices → number_of (level_at frame.now.cells 1) v ≡ lowest → result ≡ row_name frame.now (free_level frame.now.cells self.now.vertices.now) v }
    {
        let mut level = frame.levels();
        while level > 0 {
            let number = frame.above(level, lowest);
            if !self.is_marked(frame, level, number) {
                return (level, number);
            }
            level -= 1;
        }
        (0, 0)
    }
}
