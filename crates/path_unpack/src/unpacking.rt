//! A packed walk, unpacked.

ghost use Rattle.std.specs.Prelude.{◌≡◌, ◌++◌, ◌∷◌, [], map, length, IfOk};
ghost use Rattle.search_graph.specs.Weighted.{AreSmall};
ghost use Rattle.cell_frame.specs.Cliqued.{AreExact};
ghost use Rattle.path_unpack.specs.Unpacked.{IsPackedWalk, StandsFor};

use crate::overlay::Overlay;
use crate::refining::arcs_of;
use cell_frame::{Cliques, Frame};
use overlay_query::{Hop, PackedWalk};
use plain_search::SearchFault;
use search_graph::{Cost, Weights};
use std::alloc::{AllocError, Global};
use step_search::Search;

// The vertices of a walk, by its first, its hops and its last.
fn vertices(alloc: Global, first: u32, hops: &[Hop], last: u32) -> Result<Vec<u32>, AllocError>
    ensures { IfOk result (λ walk. walk.items ≡ first ∷ (map (λ h. h.to) hops.now ++ last ∷ [])) }
{
    let mut walk = Vec::with_capacity(alloc, hops.len() + 2)?;
    walk.push(first)?;
    for hop in hops {
        walk.push(hop.to)?;
    }
    walk.push(last)?;
    Ok(walk)
}

/// A walk along arcs that a packed walk stands for: from its first vertex to its last, over open vertices, at exactly its
/// cost. Each shortcut becomes a cheapest walk inside its cell. Its vertices are answered, the first and the last with them.
///
/// The weights and the cliques are those under which the walk was packed. `search` is memory that is used again; nothing is
/// asked of it. It answers `Memory` where memory runs out.
pub fn unpack<C: Cost>(
    alloc: Global,
    frame: &Frame,
    weights: &Weights<C>,
    cliques: &Cliques<C>,
    packed: &PackedWalk,
    search: &mut Search<C>,
) -> Result<Vec<u32>, SearchFault>
    requires weights { AreSmall C.ops frame.now.graph weights.now }
    requires cliques { AreExact C.ops frame.now weights.now cliques.now (length frame.now.cells.levels) }
    requires packed { IsPackedWalk C.ops frame.now weights.now packed.now.first packed.now.hops }
    ensures { IfOk result (λ walk. StandsFor C.ops frame.now weights.now packed.now.first packed.now.hops walk.items) }
{
    frame.known();
    let overlay = Overlay {
        frame,
        weights,
        cliques,
    };
    let hops = packed.hops.as_slice();
    let end = hops.len() - 1;
    let arcs = arcs_of(alloc, &overlay, search, packed.first, &hops[..end])?;
    let walk = vertices(alloc, packed.first, arcs.as_slice(), hops[end].to)?;
    Ok(walk)
}
