//! The parts of a search inside a cell to a vertex that it holds.

ghost use Rattle.std.specs.Prelude.{◌≡◌, ℕ, ◌<◌, ◌≤◌, ◌-◌, length};
ghost use Rattle.cell_frame.specs.Borders.{Holds, IsCell};
ghost use Rattle.column_search.specs.Toward.{AreToward, level_toward};

use cell_frame::{Cell, Frame, Parts};

/// The inside of a cell, over the cells below it that don't hold the target. What lies in none of them is alone: the
/// vertices of the target's lowest cell.
pub struct Toward {
    pub cell: Cell,
    pub target: u32,
}

impl Drop for Toward {
    fn drop(self) {
        let Toward {
            cell: _cell,
            target: _target,
        } = self;
    }
}

impl Toward {
    /// Tells a proof how the parts lie to the target and the cell. It does nothing.
    pub fn lies(&self, frame: &Frame)
        requires cell { IsCell frame.now.cells self.now.cell }
        requires target { Holds frame.now.cells self.now.cell self.now.target }
        ensures { AreToward frame.now self.now.cell self.now.target }
    {
        let _ = &self.cell;
        frame.known();
    }
}

impl Parts for Toward {
    ghost within = { λ s f. Holds f.cells s.cell };

    ghost level = { λ s f. level_toward f.cells s.cell s.target };

    ghost top = { λ s f. s.cell.level - 1 };

    ghost ready = { λ s f. IsCell f.cells s.cell × Holds f.cells s.cell s.target };

    fn within(&self, frame: &Frame, v: u32) -> bool {
        frame.known();
        frame.cell(self.cell.level, v).number == self.cell.number
    }

    fn level(&self, frame: &Frame, v: u32) -> u32 {
        frame.known();
        let mut level = self.cell.level - 1;
        while level > 0 {
            if frame.cell(level, v).number != frame.cell(level, self.target).number {
                return level;
            }
            level -= 1;
        }
        0
    }

    fn known(&self, frame: &Frame) {
        frame.known();
        self.lies(frame);
    }
}
