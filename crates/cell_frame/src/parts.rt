//! Which parts a search sees.

ghost use Rattle.std.specs.Prelude.{◌≡◌, ℕ, ◌<◌, ◌≤◌, ◌-◌, length, All};
ghost use Rattle.std.specs.Bool.{OnTrue, OnFalse};
ghost use Rattle.std.specs.List.{Contains};
ghost use Rattle.cell_frame.specs.Borders.{Framed, IsFramed, IsCell, Holds};
ghost use Rattle.cell_frame.specs.Free.{free_level};
ghost use Rattle.cell_frame.specs.PartSpace.{row_name};
ghost use Rattle.cell_frame.specs.Parts.{AreParts, AreBordersBelow};

use crate::cells::Cell;
use crate::frame::Frame;

/// Which parts a search sees: at each vertex the level of the cell that is its part, or 0 where the vertex is alone; and
/// which vertices it goes over.
pub trait Parts {
    ghost within: { Self → Framed → ℕ → Type 0 };

    ghost level: { Self → Framed → ℕ → ℕ };

    ghost top: { Self → Framed → ℕ };

    ghost ready: { Self → Framed → Type 0 };

    /// Whether the search goes over `v`.
    fn within(&self, frame: &Frame, v: u32) -> bool
        requires ready { ready self.now frame.now }
        requires vertex { v < frame.now.graph.vertices }
        ensures yes { OnTrue result (within self.now frame.now v) }
        ensures no { OnFalse result (¬ within self.now frame.now v) };

    /// The level of the part that holds `v`, or 0 where `v` is alone.
    fn level(&self, frame: &Frame, v: u32) -> u32
        requires ready { ready self.now frame.now }
        requires vertex { v < frame.now.graph.vertices }
        ensures { result ≡ level self.now frame.now v };

    /// The name of the part that holds `v`: its level and its number there, or twice 0 where `v` is alone.
    fn name(&self, frame: &Frame, v: u32) -> (u32, u32)
        requires ready { ready self.now frame.now }
        requires vertex { v < frame.now.graph.vertices }
        ensures { result ≡ row_name frame.now (level self.now frame.now) v }
    {
        frame.known();
        self.known(frame);
        let level = self.level(frame, v);
        if level == 0 {
            return (0, 0);
        }
        (level, frame.cell(level, v).number)
    }

    /// Tells a proof that they are parts. It does nothing.
    fn known(&self, frame: &Frame)
        requires { ready self.now frame.now }
        ensures parts { AreParts frame.now.cells (within self.now frame.now) (level self.now frame.now) }
        ensures high { (v : ℕ) → level self.now frame.now v ≤ top self.now frame.now }
        ensures most { top self.now frame.now ≤ length frame.now.cells.levels };
}

/// The inside of a cell, over the cells one level down; inside a cell of level 1 each vertex is alone.
pub struct Below {
    pub cell: Cell,
}

impl Drop for Below {
    fn drop(self) {
        let Below { cell: _cell } = self;
    }
}

impl Below {
    /// Tells a proof that what borders the cell borders the cells below it. It does nothing.
    pub fn borders(&self, frame: &Frame)
        requires { IsCell frame.now.cells self.now.cell }
        ensures { AreBordersBelow frame.now.graph frame.now.cells self.now.cell }
    {
        frame.known();
    }
}

impl Parts for Below {
    ghost within = { λ s f. Holds f.cells s.cell };

    ghost level = { λ s f v. s.cell.level - 1 };

    ghost top = { λ s f. s.cell.level - 1 };

    ghost ready = { λ s f. IsCell f.cells s.cell };

    fn within(&self, frame: &Frame, v: u32) -> bool {
        frame.known();
        frame.cell(self.cell.level, v).number == self.cell.number
    }

    fn level(&self, frame: &Frame, v: u32) -> u32 {
        let _ = frame;
        let _ = v;
        self.cell.level - 1
    }

    fn known(&self, frame: &Frame) {
        let _ = &self.cell;
        frame.known();
    }
}

/// The parts of a query: at each vertex its highest cell that holds no terminal, or else the vertex alone.
#[derive(Drop)]
pub struct Terminals<'a> {
    pub vertices: &'a [u32],
}

impl<'a> Terminals<'a> {
    /// Tells a proof that each terminal is alone. It does nothing.
    pub fn alone(&self, frame: &Frame)
        ensures { (t : ℕ) → Contains self.now.vertices.now t → free_level frame.now.cells self.now.vertices.now t ≡ 0 }
    {
        let _ = &self.vertices;
        frame.known();
    }
}

impl<'a> Parts for Terminals<'a> {
    ghost within = { λ s f v. Unit {0} };

    ghost level = { λ s f. free_level f.cells s.vertices.now };

    ghost top = { λ s f. length f.cells.levels };

    ghost ready = { λ s f. All (λ t. t < f.graph.vertices) s.vertices.now };

    fn within(&self, frame: &Frame, v: u32) -> bool {
        let _ = &self.vertices;
        let _ = frame;
        let _ = v;
        true
    }

    fn level(&self, frame: &Frame, v: u32) -> u32 {
        frame.free_level(v, self.vertices)
    }

    fn known(&self, frame: &Frame) {
        let _ = &self.vertices;
        frame.known();
    }
}
