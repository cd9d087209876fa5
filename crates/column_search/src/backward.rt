//! The steps of a search backwards inside a cell.

ghost use Rattle.std.specs.Prelude.{◌≡◌, ℕ, ◌+◌, ◌<◌, ◌≤◌, length, IfSome, IfNone, Some};
ghost use Rattle.std.specs.Bool.{OnTrue, OnFalse};
ghost use Rattle.std.specs.List.{Contains, slice_get};
ghost use Rattle.search_graph.specs.Digraph.{IsArc};
ghost use Rattle.cell_frame.specs.Borders.{IsCell, at_cell};
ghost use Rattle.cell_frame.specs.Parts.{ShareCell};
ghost use Rattle.column_search.specs.Toward.{level_toward};
ghost use Rattle.column_search.specs.Backward.{IsArcBack, IsBackward, IsLeapBack, IsLeapName, back_space, part_toward, place_in};

use crate::columns::Overlay;
use crate::toward::Toward;
use cell_frame::{Cell, Frame, Parts};
use cost_lists::CostRow;
use search_graph::{ArcRow, Cost};
use step_search::{Hop, Steps};

/// An overlay, backwards: out of a vertex the arcs lead that lead to it over the graph, and out of an exit of a part, a cell,
/// a way leads to each of its entries.
#[derive(Drop)]
pub struct Backward<'a, C: Cost> {
    pub overlay: &'a Overlay<'a, C>,
    pub toward: &'a Toward,
}

// The place of a vertex among the exits of a cell, if it is one.
fn exit(frame: &Frame, cell: Cell, v: u32) -> Option<usize>
    requires { IsCell frame.now.cells cell }
    ensures some { IfSome result (λ i. slice_get (at_cell frame.now.exits cell) i ≡ Some v) }
    ensures none { IfNone result (¬ Contains (at_cell frame.now.exits cell) v) }
{
    frame.known();
    match frame.exits(cell).binary_search(&v) {
        Ok(i) => Some(i),
        Err(_) => None,
    }
}

// The same, or how many exits there are where it is none.
fn exit_place(frame: &Frame, cell: Cell, v: u32) -> usize
    requires { IsCell frame.now.cells cell }
    ensures place { result ≡ place_in (at_cell frame.now.exits cell) v }
    ensures few { result ≤ frame.now.graph.vertices }
{
    frame.known();
    match exit(frame, cell, v) {
        Some(i) => i,
        None => frame.exits(cell).len(),
    }
}

impl<'a, C: Cost> Backward<'a, C> {
    // Whether `other` is in the part of `v`, which is of this level, and that is a cell.
    #[inline(always)]
    fn shares(&self, v: u32, level: u32, other: u32) -> bool
        requires ready { IsBackward C.ops self.now.overlay.now.frame.now self.now.overlay.now.weights.now self.now.overlay.now.cliques.now self.now.toward.now.cell self.now.toward.now.target self.now.overlay.now.heads.now }
        requires vertex { v < self.now.overlay.now.frame.now.graph.vertices }
        requires level { level ≡ level_toward self.now.overlay.now.frame.now.cells self.now.toward.now.cell self.now.toward.now.target v }
        requires other { other < self.now.overlay.now.frame.now.graph.vertices }
        ensures yes { OnTrue result (ShareCell self.now.overlay.now.frame.now.cells (level_toward self.now.overlay.now.frame.now.cells self.now.toward.now.cell self.now.toward.now.target) v other) }
        ensures no { OnFalse result (¬ ShareCell self.now.overlay.now.frame.now.cells (level_toward self.now.overlay.now.frame.now.cells self.now.toward.now.cell self.now.toward.now.target) v other) }
    {
        if level == 0 {
            return false;
        }
        let frame = self.overlay.frame;
        frame.cell(level, v).number == frame.cell(level, other).number
    }

    // The hop back along an arc to `v`, which is in a part of this level. There is none where the arc comes from outside of
    // the cell or from the part itself, or `v` is closed.
    #[inline(always)]
    fn along(&self, v: u32, level: u32, arc: u32) -> Option<Hop<C>>
        requires ready { IsBackward C.ops self.now.overlay.now.frame.now self.now.overlay.now.weights.now self.now.overlay.now.cliques.now self.now.toward.now.cell self.now.toward.now.target self.now.overlay.now.heads.now }
        requires vertex { v < self.now.overlay.now.frame.now.graph.vertices }
        requires level { level ≡ level_toward self.now.overlay.now.frame.now.cells self.now.toward.now.cell self.now.toward.now.target v }
        requires arc { (u : ℕ) × IsArc self.now.overlay.now.frame.now.graph arc u v }
        ensures some { IfSome result (λ h. IsArcBack C.ops self.now.overlay.now.frame.now self.now.overlay.now.weights.now self.now.toward.now.cell self.now.toward.now.target v arc h.head h.cost) }
        ensures all { (u : ℕ) (s : C) → IsArcBack C.ops self.now.overlay.now.frame.now self.now.overlay.now.weights.now self.now.toward.now.cell self.now.toward.now.target v arc u s → result ≡ Some (record { head = u; cost = s }) }
    {
        let frame = self.overlay.frame;
        let head = frame.graph().arc(arc).0;
        if !self.toward.within(frame, head) {
            return None;
        }
        if self.shares(v, level, head) {
            return None;
        }
        match self.overlay.weights.vertex(v) {
            None => None,
            Some(cost) => {
                let cost = self.overlay.weights.arc(arc).plus(cost);
                Some(Hop { head, cost })
            }
        }
    }

    // The hop back over the part of `v`, which is a cell, from `v` as the exit at one place to the entry at another. There is
    // none where no walk leads.
    #[inline(always)]
    fn over(&self, v: u32, part: Cell, exit: usize, place: usize) -> Option<Hop<C>>
        requires ready { IsBackward C.ops self.now.overlay.now.frame.now self.now.overlay.now.weights.now self.now.overlay.now.cliques.now self.now.toward.now.cell self.now.toward.now.target self.now.overlay.now.heads.now }
        requires vertex { v < self.now.overlay.now.frame.now.graph.vertices }
        requires whole { 1 ≤ level_toward self.now.overlay.now.frame.now.cells self.now.toward.now.cell self.now.toward.now.target v }
        requires part { part ≡ part_toward self.now.overlay.now.frame.now self.now.toward.now.cell self.now.toward.now.target v }
        requires exit { slice_get (at_cell self.now.overlay.now.frame.now.exits part) exit ≡ Some v }
        requires place { place < length (at_cell self.now.overlay.now.frame.now.entries part) }
        ensures some { IfSome result (λ h. IsLeapBack C.ops self.now.overlay.now.frame.now self.now.overlay.now.weights.now self.now.toward.now.cell self.now.toward.now.target v place h.head h.cost) }
        ensures all { (u : ℕ) (s : C) → IsLeapBack C.ops self.now.overlay.now.frame.now self.now.overlay.now.weights.now self.now.toward.now.cell self.now.toward.now.target v place u s → result ≡ Some (record { head = u; cost = s }) }
    {
        let frame = self.overlay.frame;
        let head = frame.entries(part)[place];
        match self.overlay.cliques.row(frame, part, place).get(exit) {
            None => None,
            Some(cost) => Some(Hop { head, cost }),
        }
    }

    // How many entries the part of `v` has, where `v` is an exit of it.
    fn entries(&self, v: u32) -> usize
        requires ready { IsBackward C.ops self.now.overlay.now.frame.now self.now.overlay.now.weights.now self.now.overlay.now.cliques.now self.now.toward.now.cell self.now.toward.now.target self.now.overlay.now.heads.now }
        requires vertex { v < self.now.overlay.now.frame.now.graph.vertices }
        ensures few { result ≤ self.now.overlay.now.frame.now.graph.vertices }
        ensures named { (j : ℕ) → j < result → IsLeapName self.now.overlay.now.frame.now self.now.toward.now.cell self.now.toward.now.target v j }
        ensures all { (j : ℕ) → IsLeapName self.now.overlay.now.frame.now self.now.toward.now.cell self.now.toward.now.target v j → j < result }
    {
        let frame = self.overlay.frame;
        let level = self.toward.level(frame, v);
        if level == 0 {
            return 0;
        }
        let part = frame.cell(level, v);
        if exit_place(frame, part, v) < frame.exits(part).len() {
            frame.entries(part).len()
        } else {
            0
        }
    }
}

impl<'a, C: Cost> Steps<C> for Backward<'a, C> {
    ghost space = { λ s. back_space C.ops s.overlay.now.frame.now s.overlay.now.weights.now s.toward.now.cell s.toward.now.target s.overlay.now.heads.now };

    ghost ready = { λ s. IsBackward C.ops s.overlay.now.frame.now s.overlay.now.weights.now s.overlay.now.cliques.now s.toward.now.cell s.toward.now.target s.overlay.now.heads.now };

    fn may_begin(&self, v: u32) -> bool {
        v == self.toward.target
    }

    fn arcs(&self, v: u32) -> ArcRow<'_> {
        let arcs = self.overlay.heads.leading_to(v).len();
        let count = arcs + self.entries(v);
        ArcRow::range(0, count as u32)
    }

    fn by_arc(&self, v: u32, i: u32) -> Option<Hop<C>> {
        self.by_arc_named(v, self.row(v), i)
    }

    fn heads(&self, v: u32) -> &[u32] {
        let _ = &self.overlay;
        let _ = v;
        &[]
    }

    fn costs(&self, v: u32) -> CostRow<'_, C> {
        let _ = &self.overlay;
        let _ = v;
        CostRow::empty()
    }

    fn row(&self, v: u32) -> (u32, u32) {
        let frame = self.overlay.frame;
        let level = self.toward.level(frame, v);
        if level == 0 {
            return (0, 0);
        }
        (level, exit_place(frame, frame.cell(level, v), v) as u32)
    }

    #[inline(always)]
    fn by_arc_named(&self, v: u32, row: (u32, u32), i: u32) -> Option<Hop<C>> {
        let arcs = self.overlay.heads.leading_to(v);
        let place = i as usize;
        if place < arcs.len() {
            return self.along(v, row.0, arcs[place]);
        }
        let part = self.overlay.frame.cell(row.0, v);
        self.over(v, part, row.1 as usize, place - arcs.len())
    }
}
