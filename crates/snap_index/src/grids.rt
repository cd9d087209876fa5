//! Where the segments of a network lie, for snapping.

ghost use Rattle.std.specs.Prelude.{◌≡◌, ◌<◌, ◌^◌, IfOk, OnOk, length};
ghost use Rattle.snap_index.specs.Ends.{all_ends};
ghost use Rattle.snap_index.specs.Index.{IsIndexOf};

use crate::indexes::Index;
use edge_graph::Network;
use road_base::Point;
use std::alloc::{AllocError, Global};
use std::marker::Model;

/// The two ends of a segment, in the order of its way.
#[derive(Clone, Copy)]
pub struct SegmentEnds {
    pub from: Point,
    pub to: Point,
}

/// Where the segments of a network lie, and an index of them: 21.1 bytes a segment, and 16 more while it is made.
/// Contracts see the list of their ends.
pub struct Grid {
    ends: Vec<SegmentEnds>,
    index: Index,
}

impl Drop for Grid {
    fn drop(self) {
        let Grid {
            ends: _ends,
            index: _index,
        } = self;
    }
}

impl Model for Grid {
    ghost use Rattle.std.specs.Prelude.{List};
    ghost use Rattle.snap_index.specs.declared.grids.SegmentEnds.{SegmentEnds};
    ghost use Rattle.snap_index.specs.Index.{IsIndexOf};

    ghost Value = { List SegmentEnds };

    ghost view = { λ grid. grid.ends.items };

    ghost invariant = { λ grid. IsIndexOf grid.ends.items grid.index };
}

// The ends of all segments, in their order.
fn ends_of(alloc: Global, network: &Network) -> Result<Vec<SegmentEnds>, AllocError>
    ensures ends { IfOk result (λ ends. ends.items ≡ all_ends network.now.segments) }
    ensures few { OnOk result (length network.now.segments < 2 ^ 30) }
{
    let mut ends = Vec::new(alloc);
    for segment in 0..network.segments() {
        let (from, to) = network.ends(segment);
        ends.push(SegmentEnds { from, to })?;
    }
    Ok(ends)
}

impl Grid {
    /// The grid of a network. It answers an error only where memory runs out.
    pub fn of(alloc: Global, network: &Network) -> Result<Grid, AllocError>
        ensures { IfOk result (λ grid. grid ≡ all_ends network.now.segments) }
    {
        let ends = ends_of(alloc, network)?;
        let index = Index::of(alloc, &ends)?;
        Ok(Grid { ends, index })
    }

    /// The ends of all segments, in their order.
    pub(crate) fn ends(&self) -> &[SegmentEnds]
        ensures { result.now ≡ self.now }
    {
        &self.ends
    }

    /// The index of these lines.
    pub(crate) fn index(&self) -> &Index
        ensures { IsIndexOf self.now result.now }
    {
        &self.index
    }
}
