//! The hops of a walk over parts.

ghost use Rattle.std.specs.Prelude.{◌≡◌, ◌<◌, All, length, IfOk};
ghost use Rattle.overlay_query.specs.Packed.{ArePacked, IsByPart};

use crate::packed::Hop;
use cell_frame::{Frame, Parts};
use std::alloc::{AllocError, Global};

// The hop from one vertex of a walk over parts to the next.
fn hop_by<P: Parts>(frame: &Frame, parts: &P, u: u32, v: u32) -> Hop
    requires ready { P.ready parts.now frame.now }
    requires one { u < frame.now.graph.vertices }
    requires other { v < frame.now.graph.vertices }
    ensures to { result.to ≡ v }
    ensures by { IsByPart frame.now.cells (P.level parts.now frame.now) u v result.by }
{
    frame.known();
    parts.known(frame);
    let level = parts.level(frame, u);
    if level == 0 {
        return Hop { to: v, by: None };
    }
    let cell = frame.cell(level, u);
    if frame.cell(level, v).number == cell.number {
        return Hop {
            to: v,
            by: Some(cell),
        };
    }
    Hop { to: v, by: None }
}

/// The hops of a walk over parts: from one vertex to the next by the cell that is the part of both, or else by an arc.
/// It answers the error where memory runs out.
pub fn pack<P: Parts>(
    alloc: Global,
    frame: &Frame,
    parts: &P,
    walk: &[u32],
) -> Result<Vec<Hop>, AllocError>
    requires ready { P.ready parts.now frame.now }
    requires walk { All (λ v. v < frame.now.graph.vertices) walk.now }
    requires some { 0 < length walk.now }
    ensures { IfOk result (λ hops. ArePacked frame.now.cells (P.level parts.now frame.now) walk.now hops.items) }
{
    let mut hops = Vec::with_capacity(alloc, walk.len() - 1)?;
    for i in 1..walk.len() {
        let hop = hop_by(frame, parts, walk[i - 1], walk[i]);
        hops.push(hop)?;
    }
    Ok(hops)
}
