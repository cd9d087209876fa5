//! Cliques for several weightings that changed.

ghost use Rattle.std.specs.Prelude.{length, All, IfOk};
ghost use Rattle.std.specs.List.{AllZip};
ghost use Rattle.search_graph.specs.Weighted.{AreSmall};
ghost use Rattle.cell_frame.specs.Cliqued.{AreExact};
ghost use Rattle.class_sets.specs.Exacting.{AreCounted, AreKept};

use crate::clique_sets::CliqueSets;
use cell_frame::Frame;
use cell_recustomize::{Changed, recustomize_in_threads};
use search_graph::{Cost, Weights};
use std::alloc::{AllocError, Global};
use std::thread::Threads;

/// Cliques for several weightings that were brought up to date.
#[derive(Drop)]
pub struct RecustomizedSets<C: Cost> {
    /// those of each weighting
    pub sets: CliqueSets<C>,
    /// how many searches it took for all of them; it stands still at 18446744073709551615
    pub searches: u64,
}

/// The cliques of each of these weightings, by the old ones of each and the places where its costs changed, as
/// `recustomize` gives them for it alone. It answers the error where memory runs out.
pub fn recustomize_all<C: Cost + Send + Sync>(
    rt: &(impl Threads + Sync),
    alloc: Global,
    frame: &Frame,
    weights: &[Weights<C>],
    old: &CliqueSets<C>,
    changed: &[Changed],
) -> Result<RecustomizedSets<C>, AllocError>
    requires small { All (AreSmall C.ops frame.now.graph) weights.now }
    requires kept { AreKept C.ops frame.now weights.now old.now changed.now }
    ensures cliques { IfOk result (λ made. AllZip (λ w cliques. AreExact C.ops frame.now w cliques (length frame.now.cells.levels)) weights.now made.sets) }
    ensures searches { IfOk result (λ made. AreCounted frame.now changed.now made.searches) }
{
    let mut sets = Vec::with_capacity(alloc, weights.len())?;
    let mut searches: u64 = 0;
    for (k, weighting) in weights.iter().enumerate() {
        let vertices = changed[k].vertices.as_slice();
        let arcs = changed[k].arcs.as_slice();
        let cliques = old.get(k);
        let made = recustomize_in_threads(rt, alloc, frame, weighting, cliques, vertices, arcs)?;
        sets.push(made.cliques)?;
        searches = searches.saturating_add(made.searches);
    }
    Ok(RecustomizedSets {
        sets: CliqueSets::of(sets),
        searches,
    })
}
