//! The cliques of all cells for changed weights, level by level.

ghost use Rattle.std.specs.Prelude.{◌<◌, length, All, IfOk};
ghost use Rattle.search_graph.specs.Weighted.{AreSmall};
ghost use Rattle.cell_frame.specs.Cliqued.{AreExact};
ghost use Rattle.cell_customize.specs.Levels.{IsExactLevel};
ghost use Rattle.cell_recustomize.specs.Making.{IsPrepared};
ghost use Rattle.cell_recustomize.specs.Touched.{WereExact, IsTouchedCount};

use crate::counting::entries_of;
use crate::marking::{Changes, marks_of};
use crate::pieces::cliques_of;
use cell_customize::Scratch;
use cell_frame::{Cliques, Frame, LevelCliques};
use search_graph::{Cost, Weights};
use std::alloc::{AllocError, Global};

/// Cliques that were brought up to date.
#[derive(Drop)]
pub struct Recustomized<C: Cost> {
    /// those of all cells, for the new weights
    pub cliques: Cliques<C>,
    /// how many searches it took: one from each entry of each touched cell
    pub searches: u64,
}

// The cliques of a level, by the new ones of the levels below it and the old ones.
fn level_cliques<C: Cost>(
    alloc: Global,
    frame: &Frame,
    weights: &Weights<C>,
    old: &Cliques<C>,
    cliques: &Cliques<C>,
    marks: &[bool],
    level: u32,
    scratch: &mut Scratch<C>,
) -> Result<LevelCliques<C>, AllocError>
    requires { IsPrepared C.ops frame.now weights.now old.now cliques.now marks.now level }
    ensures { IfOk result (λ rows. IsExactLevel C.ops frame.now weights.now rows level) }
{
    let count = frame.count(level);
    let all = cliques_of(
        alloc, frame, weights, old, cliques, marks, level, 0, count, scratch,
    )?;
    Ok(all.into_level())
}

/// The cliques of all cells for weights that differ only at these vertices and arcs from those for which the old cliques
/// are exact. Touched are the cells that hold one of the vertices or both ends of one of the arcs: these are customized
/// anew, level by level from the lowest, and all others keep their rows. It answers the error where memory runs out.
pub fn recustomize<C: Cost>(
    alloc: Global,
    frame: &Frame,
    weights: &Weights<C>,
    old: &Cliques<C>,
    vertices: &[u32],
    arcs: &[u32],
) -> Result<Recustomized<C>, AllocError>
    requires weights { AreSmall C.ops frame.now.graph weights.now }
    requires vertices { All (λ v. v < frame.now.graph.vertices) vertices.now }
    requires arcs { All (λ i. i < length frame.now.graph.arcs) arcs.now }
    requires old { WereExact C.ops frame.now weights.now old.now vertices.now arcs.now }
    ensures cliques { IfOk result (λ made. AreExact C.ops frame.now weights.now made.cliques (length frame.now.cells.levels)) }
    ensures searches { IfOk result (λ made. IsTouchedCount frame.now vertices.now arcs.now made.searches) }
{
    let changes = Changes { vertices, arcs };
    let mut scratch = Scratch::new(alloc);
    let mut cliques = Cliques::new(alloc, frame, weights)?;
    let mut searches = 0;
    for below in 0..frame.levels() {
        let level = below + 1;
        let marked = marks_of(alloc, frame, level, changes)?;
        let marks = marked.as_slice();
        let rows = level_cliques(
            alloc,
            frame,
            weights,
            old,
            &cliques,
            marks,
            level,
            &mut scratch,
        )?;
        cliques.push(rows)?;
        searches += entries_of(frame, level, marks);
    }
    Ok(Recustomized { cliques, searches })
}
