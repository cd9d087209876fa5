//! The steps of a search over parts.

ghost use Rattle.std.specs.Prelude.{◌≡◌, ℕ, ◌<◌, ◌≤◌, ◌⊎◌, length, IfSome, IfNone, Some};
ghost use Rattle.std.specs.Bool.{OnTrue, OnFalse};
ghost use Rattle.std.specs.List.{slice_get};
ghost use Rattle.search_graph.specs.Digraph.{IsArc, IsOpen, Leaves};
ghost use Rattle.cell_frame.specs.Borders.{IsFramed, IsCell, IsEntry};
ghost use Rattle.cell_frame.specs.Cliqued.{AreExact};
ghost use Rattle.cell_frame.specs.Parts.{whole_at};
ghost use Rattle.cell_frame.specs.declared.crossings.Crossing.{Crossing};
ghost use Rattle.cell_frame.specs.PartSpace.{part_space, row_name, IsLawful};
ghost use Rattle.search_graph.specs.Weighted.{AreSmall};

use crate::cells::Cell;
use crate::cliques::Cliques;
use crate::frame::Frame;
use crate::parts::Parts;
use cost_lists::CostRow;
use search_graph::{ArcRow, Cost, Weights};
use step_search::{Hop, Steps};

/// A graph over its parts: arcs lead from part to part, and through a part its clique.
#[derive(Drop)]
pub struct Over<'a, C: Cost, P> {
    pub frame: &'a Frame,
    pub weights: &'a Weights<C>,
    pub cliques: &'a Cliques<C>,
    pub parts: &'a P,
}

impl<'a, C: Cost, P: Parts> Over<'a, C, P> {
    /// Tells a proof what is true of each search over parts. It does nothing.
    pub fn known(&self)
        requires weights { AreSmall C.ops self.now.frame.now.graph self.now.weights.now }
        requires cliques { AreExact C.ops self.now.frame.now self.now.weights.now self.now.cliques.now (P.top self.now.parts.now self.now.frame.now) }
        requires parts { P.ready self.now.parts.now self.now.frame.now }
        ensures framed { IsFramed self.now.frame.now }
        ensures lawful { IsLawful C.ops self.now.frame.now self.now.weights.now (P.within self.now.parts.now self.now.frame.now) (P.level self.now.parts.now self.now.frame.now) }
    {
        self.frame.known();
        self.parts.known(self.frame);
    }

    // The part of `v` where that is a cell, by the name of the row out of `v`.
    #[inline(always)]
    fn part_named(&self, v: u32, row: (u32, u32)) -> Option<Cell>
        requires ready { P.ready self.now.parts.now self.now.frame.now }
        requires vertex { v < self.now.frame.now.graph.vertices }
        requires row { row ≡ row_name self.now.frame.now (P.level self.now.parts.now self.now.frame.now) v }
        ensures some { IfSome result (λ k. k ≡ whole_at self.now.frame.now.cells (P.level self.now.parts.now self.now.frame.now) v) }
        ensures whole { IfSome result (λ k. 1 ≤ P.level self.now.parts.now self.now.frame.now v) }
        ensures cell { IfSome result (IsCell self.now.frame.now.cells) }
        ensures none { IfNone result (P.level self.now.parts.now self.now.frame.now v ≡ 0) }
    {
        self.frame.known();
        self.parts.known(self.frame);
        let _ = v;
        let (level, number) = row;
        if level == 0 {
            return None;
        }
        Some(Cell { level, number })
    }

    // The hop by an arc out of a vertex that is alone.
    #[inline(always)]
    fn along(&self, v: u32, arc: u32) -> Option<Hop<C>>
        requires weights { AreSmall C.ops self.now.frame.now.graph self.now.weights.now }
        requires ready { P.ready self.now.parts.now self.now.frame.now }
        requires leaves { Leaves self.now.frame.now.graph arc v }
        ensures some { IfSome result (λ h. (a : C) × (x : C) × IsArc self.now.frame.now.graph arc v h.head × (slice_get self.now.weights.now.arc arc ≡ Some a) × IsOpen self.now.weights.now h.head x × (h.cost ≡ C.ops.plus a x) × P.within self.now.parts.now self.now.frame.now h.head) }
        ensures all { (w : ℕ) (a x : C) → IsArc self.now.frame.now.graph arc v w → slice_get self.now.weights.now.arc arc ≡ Some a → IsOpen self.now.weights.now w x → P.within self.now.parts.now self.now.frame.now w → result ≡ Some (record { head = w; cost = C.ops.plus a x }) }
    {
        self.frame.known();
        let _ = v;
        let head = self.frame.graph().arc(arc).1;
        if !self.parts.within(self.frame, head) {
            return None;
        }
        match self.weights.vertex(head) {
            None => None,
            Some(cost) => {
                let cost = self.weights.arc(arc).plus(cost);
                Some(Hop { head, cost })
            }
        }
    }

    // The hop by an arc between cells, by its place among these.
    #[inline(always)]
    fn across(&self, i: u32) -> Option<Hop<C>>
        requires weights { AreSmall C.ops self.now.frame.now.graph self.now.weights.now }
        requires cliques { AreExact C.ops self.now.frame.now self.now.weights.now self.now.cliques.now (P.top self.now.parts.now self.now.frame.now) }
        requires ready { P.ready self.now.parts.now self.now.frame.now }
        requires arc { i < length self.now.frame.now.crossings }
        ensures some { IfSome result (λ h. (c : Crossing) × (a : C) × (x : C) × (slice_get self.now.frame.now.crossings i ≡ Some c) × (h.head ≡ c.head) × (slice_get self.now.weights.now.arc c.arc ≡ Some a) × IsOpen self.now.weights.now c.head x × (h.cost ≡ C.ops.plus a x) × P.within self.now.parts.now self.now.frame.now c.head) }
        ensures all { (c : Crossing) (a x : C) → slice_get self.now.frame.now.crossings i ≡ Some c → slice_get self.now.weights.now.arc c.arc ≡ Some a → IsOpen self.now.weights.now c.head x → P.within self.now.parts.now self.now.frame.now c.head → result ≡ Some (record { head = c.head; cost = C.ops.plus a x }) }
    {
        self.frame.known();
        let head = self.frame.crossings()[i as usize].head;
        if !self.parts.within(self.frame, head) {
            return None;
        }
        match self.cliques.crossing(i) {
            None => None,
            Some(cost) => Some(Hop { head, cost }),
        }
    }
}

impl<'a, C: Cost, P: Parts> Over<'a, C, P> {
    // Whether a vertex is open.
    fn is_open(&self, v: u32) -> bool
        requires { v < length self.now.weights.now.vertex }
        ensures yes { OnTrue result ((x : _) × IsOpen self.now.weights.now v x) }
        ensures no { OnFalse result (¬ ((x : _) × IsOpen self.now.weights.now v x)) }
    {
        self.weights.vertex(v).is_some()
    }

    // Whether a vertex is alone or an entry of its part.
    fn begins_part(&self, v: u32) -> bool
        requires ready { P.ready self.now.parts.now self.now.frame.now }
        requires vertex { v < self.now.frame.now.graph.vertices }
        ensures yes { OnTrue result ((P.level self.now.parts.now self.now.frame.now v ≡ 0) ⊎ IsEntry self.now.frame.now.graph self.now.frame.now.cells (whole_at self.now.frame.now.cells (P.level self.now.parts.now self.now.frame.now) v) v) }
        ensures no { OnFalse result (¬ ((P.level self.now.parts.now self.now.frame.now v ≡ 0) ⊎ IsEntry self.now.frame.now.graph self.now.frame.now.cells (whole_at self.now.frame.now.cells (P.level self.now.parts.now self.now.frame.now) v) v)) }
    {
        self.frame.known();
        self.parts.known(self.frame);
        let level = self.parts.level(self.frame, v);
        if level == 0 {
            return true;
        }
        match self.frame.entry(self.frame.cell(level, v), v) {
            Some(_) => true,
            None => false,
        }
    }
}

impl<'a, C: Cost, P: Parts> Steps<C> for Over<'a, C, P> {
    ghost space = { λ s. part_space C.ops s.frame.now s.weights.now (P.within s.parts.now s.frame.now) (P.level s.parts.now s.frame.now) };

    ghost ready = { λ s. AreSmall C.ops s.frame.now.graph s.weights.now × AreExact C.ops s.frame.now s.weights.now s.cliques.now (P.top s.parts.now s.frame.now) × P.ready s.parts.now s.frame.now };

    fn may_begin(&self, v: u32) -> bool {
        if !self.parts.within(self.frame, v) {
            return false;
        }
        if !self.is_open(v) {
            return false;
        }
        self.begins_part(v)
    }

    fn arcs(&self, v: u32) -> ArcRow<'_> {
        self.arcs_named(v, self.row(v))
    }

    fn by_arc(&self, v: u32, i: u32) -> Option<Hop<C>> {
        self.by_arc_named(v, self.row(v), i)
    }

    fn heads(&self, v: u32) -> &[u32] {
        self.heads_named(v, self.row(v))
    }

    fn costs(&self, v: u32) -> CostRow<'_, C> {
        self.costs_named(v, self.row(v))
    }

    fn row(&self, v: u32) -> (u32, u32) {
        self.frame.known();
        self.parts.name(self.frame, v)
    }

    fn arcs_named(&self, v: u32, row: (u32, u32)) -> ArcRow<'_> {
        self.frame.known();
        self.parts.known(self.frame);
        match self.part_named(v, row) {
            None => self.frame.graph().out(v),
            Some(part) => self.frame.leaving(part.level, v),
        }
    }

    #[inline(always)]
    fn by_arc_named(&self, v: u32, row: (u32, u32), i: u32) -> Option<Hop<C>> {
        self.frame.known();
        self.parts.known(self.frame);
        match self.part_named(v, row) {
            None => self.along(v, i),
            Some(_) => self.across(i),
        }
    }

    #[inline(always)]
    fn leads_on(&self, row: (u32, u32), place: usize, v: u32) -> Option<ArcRow<'_>> {
        self.frame.known();
        self.parts.known(self.frame);
        let _ = v;
        let (level, number) = row;
        if level == 0 {
            return None;
        }
        self.frame.lead(Cell { level, number }, place)
    }

    fn heads_named(&self, v: u32, row: (u32, u32)) -> &[u32] {
        match self.part_named(v, row) {
            None => &[],
            Some(part) => self.frame.exits(part),
        }
    }

    fn costs_named(&self, v: u32, row: (u32, u32)) -> CostRow<'_, C> {
        self.frame.known();
        self.parts.known(self.frame);
        let Some(part) = self.part_named(v, row) else {
            return CostRow::empty();
        };
        if !self.parts.within(self.frame, v) {
            return CostRow::empty();
        }
        let Some(i) = self.frame.entry_at(part.level, v) else {
            return CostRow::empty();
        };
        self.cliques.row(self.frame, part, i)
    }
}
