//! The cliques of all cells, level by level.

ghost use Rattle.std.specs.Prelude.{◌≡◌, ◌-◌, ◌≤◌, length, IfOk};
ghost use Rattle.cell_frame.specs.Cliqued.{AreExact};
ghost use Rattle.search_graph.specs.Weighted.{AreSmall};
ghost use Rattle.cell_customize.specs.Levels.{IsExactLevel};

use crate::pieces::cliques_of;
use crate::scratch::Scratch;
use cell_frame::{Cliques, Frame, LevelCliques};
use search_graph::{Cost, Weights};
use std::alloc::{AllocError, Global};

// The cliques of a level, by those of the levels below it.
fn level_cliques<C: Cost>(
    alloc: Global,
    frame: &Frame,
    weights: &Weights<C>,
    cliques: &Cliques<C>,
    level: u32,
    scratch: &mut Scratch<C>,
) -> Result<LevelCliques<C>, AllocError>
    requires above { 1 ≤ level }
    requires below { level ≤ length frame.now.cells.levels }
    requires weights { AreSmall C.ops frame.now.graph weights.now }
    requires cliques { AreExact C.ops frame.now weights.now cliques.now (level - 1) }
    ensures { IfOk result (λ rows. IsExactLevel C.ops frame.now weights.now rows level) }
{
    let count = frame.count(level);
    let all = cliques_of(alloc, frame, weights, cliques, level, 0, count, scratch)?;
    Ok(all.into_level())
}

/// What each cell's cheapest walks from its entries to its exits cost, level by level from the lowest. It answers the
/// error where memory runs out.
///
/// One search goes over all cells, begun anew at each entry.
pub fn customize<C: Cost>(
    alloc: Global,
    frame: &Frame,
    weights: &Weights<C>,
) -> Result<Cliques<C>, AllocError>
    requires weights { AreSmall C.ops frame.now.graph weights.now }
    ensures { IfOk result (λ cliques. AreExact C.ops frame.now weights.now cliques (length frame.now.cells.levels)) }
{
    let mut scratch = Scratch::new(alloc);
    let mut cliques = Cliques::new(alloc, frame, weights)?;
    for below in 0..frame.levels() {
        let level = level_cliques(alloc, frame, weights, &cliques, below + 1, &mut scratch)?;
        cliques.push(level)?;
    }
    Ok(cliques)
}
