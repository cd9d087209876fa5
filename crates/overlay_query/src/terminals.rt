//! The parts of a query, with the part of each cell of the lowest level looked up beforehand.

ghost use Rattle.std.specs.Prelude.{◌≡◌, ℕ, ◌<◌, ◌≤◌, All, length, IfOk};
ghost use Rattle.std.specs.List.{Contains};
ghost use Rattle.cell_partition.specs.Partition.{level_at, number_of};
ghost use Rattle.cell_frame.specs.Free.{free_level};
ghost use Rattle.cell_frame.specs.PartSpace.{row_name};
ghost use Rattle.overlay_query.specs.TerminalCells.{AreTerminalCells, AreTerminalMarks};

use crate::terminal_marks::TerminalMarks;
use cell_frame::{Frame, Parts, Terminals};
use std::alloc::{AllocError, Global};

/// The parts of a query, as `cell_frame::Terminals` has them: at each vertex its highest cell that holds no terminal, or
/// else the vertex alone. A search asks for the part of each vertex that it settles, and all vertices of a cell of the lowest
/// level are in one part, so the parts of these cells are named once, before it begins: eight bytes for each.
pub struct TerminalCells {
    /// the terminals
    pub vertices: Vec<u32>,
    /// the name of the part in which each cell of the lowest level lies, by its number
    pub names: Vec<(u32, u32)>,
}

impl Drop for TerminalCells {
    fn drop(self) {
        let TerminalCells {
            vertices: _vertices,
            names: _names,
        } = self;
    }
}

// The names of the parts in which the cells of the lowest level lie.
fn names_of(
    alloc: Global,
    frame: &Frame,
    marks: &TerminalMarks,
) -> Result<Vec<(u32, u32)>, AllocError>
    requires { AreTerminalMarks frame.now marks.now.vertices.now marks.now.levels.items }
    ensures { IfOk result (λ names. AreTerminalCells frame.now marks.now.vertices.now names.items) }
{
    frame.known();
    if frame.levels() == 0 {
        return Ok(Vec::new(alloc));
    }
    let count = frame.count(1);
    let mut names = Vec::with_capacity(alloc, count as usize)?;
    for number in 0..count {
        names.push(marks.name(frame, number))?;
    }
    Ok(names)
}

// The same of these terminals.
fn names_by(alloc: Global, frame: &Frame, vertices: &[u32]) -> Result<Vec<(u32, u32)>, AllocError>
    requires { All (λ t. t < frame.now.graph.vertices) vertices.now }
    ensures { IfOk result (λ names. AreTerminalCells frame.now vertices.now names.items) }
{
    let marks = TerminalMarks::of(alloc, frame, vertices)?;
    names_of(alloc, frame, &marks)
}

impl TerminalCells {
    /// The parts of these terminals.
    pub fn of(alloc: Global, frame: &Frame, vertices: Vec<u32>) -> Result<TerminalCells, AllocError>
        requires { All (λ t. t < frame.now.graph.vertices) vertices.items }
        ensures vertices { IfOk result (λ parts. parts.vertices.items ≡ vertices.items) }
        ensures cells { IfOk result (λ parts. AreTerminalCells frame.now vertices.items parts.names.items) }
    {
        let names = names_by(alloc, frame, &vertices)?;
        Ok(TerminalCells { vertices, names })
    }

    /// Tells a proof that each terminal is alone. It does nothing.
    pub fn alone(&self, frame: &Frame)
        ensures { (t : ℕ) → Contains self.now.vertices.items t → free_level frame.now.cells self.now.vertices.items t ≡ 0 }
    {
        let terminals = Terminals {
            vertices: self.vertices.as_slice(),
        };
        terminals.alone(frame);
    }
}

impl Parts for TerminalCells {
    ghost within = { λ s f v. Unit {0} };

    ghost level = { λ s f. free_level f.cells s.vertices.items };

    ghost top = { λ s f. length f.cells.levels };

    ghost ready = { λ s f. AreTerminalCells f s.vertices.items s.names.items };

    fn within(&self, frame: &Frame, v: u32) -> bool {
        let _ = &self.vertices;
        let _ = frame;
        let _ = v;
        true
    }

    fn level(&self, frame: &Frame, v: u32) -> u32 {
        self.name(frame, v).0
    }

    #[inline(always)]
    fn name(&self, frame: &Frame, v: u32) -> (u32, u32) {
        if self.names.is_empty() {
            return (0, 0);
        }
        self.names[frame.lowest(v) as usize]
    }

    fn known(&self, frame: &Frame) {
        let terminals = Terminals {
            vertices: self.vertices.as_slice(),
        };
        terminals.known(frame);
    }
}
