//! How many entries the touched cells of a level have.

ghost use Rattle.std.specs.Prelude.{◌≡◌, ◌<◌, ◌≤◌, ◌^◌, length};
ghost use Rattle.cell_partition.specs.Partition.{level_at};
ghost use Rattle.cell_recustomize.specs.Making.{IsMarked};
ghost use Rattle.cell_recustomize.specs.Touched.{IsEntryCount};

use cell_frame::{Cell, Frame};

/// The number of entries of the marked cells of a level.
pub fn entries_of(frame: &Frame, level: u32, marks: &[bool]) -> u64
    requires above { 1 ≤ level }
    requires below { level ≤ length frame.now.cells.levels }
    requires size { length marks.now ≡ length (level_at frame.now.cells level) }
    ensures count { IsEntryCount frame.now (IsMarked level marks.now) result }
    ensures few { result < 2 ^ 32 }
{
    frame.known();
    let mut count = 0;
    for number in 0..frame.count(level) {
        if marks[number as usize] {
            let cell = Cell { level, number };
            count += frame.entries(cell).len() as u64;
        }
    }
    count
}
