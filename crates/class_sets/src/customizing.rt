//! Cliques for several weightings, from nothing.

ghost use Rattle.std.specs.Prelude.{length, All, IfOk};
ghost use Rattle.std.specs.List.{AllZip};
ghost use Rattle.search_graph.specs.Weighted.{AreSmall};
ghost use Rattle.cell_frame.specs.Cliqued.{AreExact};

use crate::clique_sets::CliqueSets;
use cell_customize::customize_in_threads;
use cell_frame::Frame;
use search_graph::{Cost, Weights};
use std::alloc::{AllocError, Global};
use std::thread::Threads;

/// The cliques of each of these weightings, as `customize` gives them for it alone. It answers the error where memory
/// runs out.
pub fn customize_all<C: Cost + Send + Sync>(
    rt: &(impl Threads + Sync),
    alloc: Global,
    frame: &Frame,
    weights: &[Weights<C>],
) -> Result<CliqueSets<C>, AllocError>
    requires { All (AreSmall C.ops frame.now.graph) weights.now }
    ensures { IfOk result (λ sets. AllZip (λ w cliques. AreExact C.ops frame.now w cliques (length frame.now.cells.levels)) weights.now sets) }
{
    let mut sets = Vec::with_capacity(alloc, weights.len())?;
    for weighting in weights {
        let cliques = customize_in_threads(rt, alloc, frame, weighting)?;
        sets.push(cliques)?;
    }
    Ok(CliqueSets::of(sets))
}
