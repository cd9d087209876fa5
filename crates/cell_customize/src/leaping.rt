//! The steps of a search over leaps.

ghost use Rattle.std.specs.Prelude.{◌≡◌, length};
ghost use Rattle.cell_customize.specs.Leaping.{AreBundles, IsGoal, leap_space};

use crate::leaps::Leaps;
use cost_lists::CostRow;
use search_graph::{ArcRow, Cost};
use step_search::{Hop, Steps};

/// A space, and the leaps out of each of its vertices.
#[derive(Drop)]
pub struct Leaping<'a, 'b, C: Cost, T> {
    pub steps: &'a T,
    pub leaps: &'b Leaps<C>,
}

impl<'a, 'b, C: Cost, T: Steps<C>> Steps<C> for Leaping<'a, 'b, C, T> {
    ghost space = { λ s. leap_space (T.space s.steps.now) s.leaps.now.bundles.items s.leaps.now.gathering.hops.items };

    ghost ready = { λ s. T.ready s.steps.now × AreBundles C.ops (T.space s.steps.now) (IsGoal s.leaps.now.goals.items) s.leaps.now.bundles.items s.leaps.now.gathering.hops.items (T.space s.steps.now).vertices };

    fn may_begin(&self, v: u32) -> bool {
        self.steps.may_begin(v)
    }

    fn arcs(&self, v: u32) -> ArcRow<'_> {
        let bundle = self.leaps.bundles[v as usize];
        ArcRow::range(bundle.from, bundle.end - bundle.from)
    }

    fn by_arc(&self, v: u32, i: u32) -> Option<Hop<C>> {
        let _ = v;
        Some(self.leaps.gathering.hops[i as usize])
    }

    fn heads(&self, v: u32) -> &[u32] {
        let _ = &self.steps;
        let _ = v;
        &[]
    }

    fn costs(&self, v: u32) -> CostRow<'_, C> {
        let _ = &self.steps;
        let _ = v;
        CostRow::empty()
    }

    fn row(&self, v: u32) -> (u32, u32) {
        let _ = &self.steps;
        let _ = v;
        (0, 0)
    }
}
