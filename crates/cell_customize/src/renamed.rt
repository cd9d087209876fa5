//! The steps of a search under numbers of one's own.

ghost use Rattle.std.specs.Prelude.{◌≡◌, ◌≤◌, length};
ghost use Rattle.std.specs.List.{slice_range};
ghost use Rattle.cell_customize.specs.Filled.{IsWhole, space_of};

use crate::local::Local;
use cost_lists::CostRow;
use search_graph::{ArcRow, Cost};
use step_search::{Hop, Steps};

/// A space, and the vertices of it to which a search comes under their own numbers.
#[derive(Drop)]
pub struct Renamed<'a, 'b, C: Cost, T> {
    pub steps: &'a T,
    pub local: &'b Local<C>,
}

impl<'a, 'b, C: Cost, T: Steps<C>> Steps<C> for Renamed<'a, 'b, C, T> {
    ghost space = { λ s. space_of (T.space s.steps.now) s.local.now };

    ghost ready = { λ s. T.ready s.steps.now × IsWhole (T.space s.steps.now) s.local.now };

    fn may_begin(&self, v: u32) -> bool {
        self.steps.may_begin(self.local.numbers.name(v))
    }

    fn arcs(&self, v: u32) -> ArcRow<'_> {
        let span = self.local.spans[v as usize];
        ArcRow::range(span.arcs, span.arcs_end - span.arcs)
    }

    fn by_arc(&self, v: u32, i: u32) -> Option<Hop<C>> {
        let _ = v;
        Some(self.local.hops[i as usize])
    }

    fn heads(&self, v: u32) -> &[u32] {
        let span = self.local.spans[v as usize];
        part(self.local.heads.as_slice(), span.row, span.row_end)
    }

    fn costs(&self, v: u32) -> CostRow<'_, C> {
        let span = self.local.spans[v as usize];
        if span.row == span.row_end {
            return CostRow::empty();
        }
        self.steps.costs(self.local.numbers.name(v))
    }

    fn row(&self, v: u32) -> (u32, u32) {
        let _ = &self.steps;
        (0, v)
    }
}

// The numbers from one place up to another.
fn part(numbers: &[u32], from: u32, end: u32) -> &[u32]
    requires rises { from ≤ end }
    requires within { end ≤ length numbers.now }
    ensures { result.now ≡ slice_range numbers.now from end }
{
    &numbers[from as usize..end as usize]
}
