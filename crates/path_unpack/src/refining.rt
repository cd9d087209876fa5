//! Hops refined, one level after another, until all are arcs.

ghost use Rattle.std.specs.Prelude.{◌≡◌, ◌-◌, ◌++◌, List, IfOk, OnOk};
ghost use Rattle.overlay_query.specs.declared.packed.Hop.{Hop};
ghost use Rattle.overlay_query.specs.Packed.{IsBy};
ghost use Rattle.path_unpack.specs.Finer.{IsOverlay, LeadOn, StandFor, Opens, IsUpTo, AreUpTo};

use crate::opening::opened;
use crate::overlay::Overlay;
use overlay_query::Hop;
use search_graph::Cost;
use std::alloc::{AllocError, Global};
use step_search::Search;

// Puts a hop behind the others, opened where it is by a cell of this level.
fn push_finer<C: Cost>(
    alloc: Global,
    overlay: &Overlay<C>,
    search: &mut Search<C>,
    level: u32,
    at: u32,
    hop: Hop,
    finer: &mut Vec<Hop>,
) -> Result<(), AllocError>
    requires overlay { IsOverlay C.ops overlay.now.frame.now overlay.now.weights.now overlay.now.cliques.now }
    requires low { IsUpTo level hop.by }
    requires leads { (s : _) × IsBy C.ops overlay.now.frame.now overlay.now.weights.now at hop.to hop.by s }
    ensures { OnOk result ((run : List Hop) × (finer.new.items ≡ finer.old.items ++ run) × Opens C.ops overlay.now.frame.now overlay.now.weights.now at hop.to hop.by run × AreUpTo (level - 1) run) }
{
    match hop.by {
        None => finer.push(hop)?,
        Some(cell) => {
            if cell.level == level {
                let run = opened(alloc, overlay, search, cell, at, hop.to)?;
                finer.extend_from_slice(run.as_slice())?;
            } else {
                finer.push(hop)?;
            }
        }
    }
    Ok(())
}

// The hops with each shortcut of this level, the highest, opened.
fn refined<C: Cost>(
    alloc: Global,
    overlay: &Overlay<C>,
    search: &mut Search<C>,
    level: u32,
    first: u32,
    hops: &[Hop],
) -> Result<Vec<Hop>, AllocError>
    requires overlay { IsOverlay C.ops overlay.now.frame.now overlay.now.weights.now overlay.now.cliques.now }
    requires low { AreUpTo level hops.now }
    requires leads { LeadOn C.ops overlay.now.frame.now overlay.now.weights.now first hops.now }
    ensures stand { IfOk result (λ finer. StandFor C.ops overlay.now.frame.now overlay.now.weights.now first hops.now finer.items) }
    ensures low { IfOk result (λ finer. AreUpTo (level - 1) finer.items) }
{
    let mut finer = Vec::with_capacity(alloc, hops.len())?;
    let mut at = first;
    for hop in hops {
        push_finer(alloc, overlay, search, level, at, *hop, &mut finer)?;
        at = hop.to;
    }
    Ok(finer)
}

/// The hops with all shortcuts opened, down to arcs. The search's memory serves all of them; nothing is asked of it.
pub fn arcs_of<C: Cost>(
    alloc: Global,
    overlay: &Overlay<C>,
    search: &mut Search<C>,
    first: u32,
    hops: &[Hop],
) -> Result<Vec<Hop>, AllocError>
    requires overlay { IsOverlay C.ops overlay.now.frame.now overlay.now.weights.now overlay.now.cliques.now }
    requires leads { LeadOn C.ops overlay.now.frame.now overlay.now.weights.now first hops.now }
    ensures stand { IfOk result (λ arcs. StandFor C.ops overlay.now.frame.now overlay.now.weights.now first hops.now arcs.items) }
    ensures arcs { IfOk result (λ arcs. AreUpTo 0 arcs.items) }
{
    let mut finer = Vec::from_slice(alloc, hops)?;
    let mut level = overlay.frame.levels();
    while level > 0 {
        finer = refined(alloc, overlay, search, level, first, finer.as_slice())?;
        level -= 1;
    }
    Ok(finer)
}
