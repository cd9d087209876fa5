//! The settling of vertices: the nearest one is taken from the queue, and labels are offered along the hops out of it.

ghost use Rattle.std.specs.Prelude.{◌≡◌, ℕ, ◌<◌, ◌^◌, [], true, false, length, Some, IfSome, IfNone, IfOk, OnOk};
ghost use Rattle.std.specs.Bool.{OnTrue, OnFalse};
ghost use Rattle.std.specs.List.{Contains, slice_get};
ghost use Rattle.std.specs.declared.cmp.Ordering.TheVariants.{Less};
ghost use Rattle.search_graph.specs.Costs.{NoDearer};
ghost use Rattle.step_search.specs.Spaces.{HasHop, LeadsBy};
ghost use Rattle.search_labels.specs.Labelled.{label_of, settled_of, changed, LabelWithin};
ghost use Rattle.row_labels.specs.Rowed.{value_of};
ghost use Rattle.search_queue.specs.Queued.{Adds};
ghost use Rattle.step_search.specs.Progress.{Expanded, IsFront, AreBounds};
ghost use Rattle.step_search.specs.Stepping.{FewerOpen, IsAtWork, IsNearest, IsPassed, IsTaken, Offers, OnlyFalls, OnlyGrows, Skips};
ghost use Rattle.step_search.specs.UnderWay.{IsUnderWay};

use crate::dijkstra::{Node, Search};
use crate::hops::{Hop, Steps};
use crate::links::Link;
use cost_lists::CostRow;
use search_graph::{ArcRow, Cost, Start};
use search_labels::{Label, Labels};
use std::alloc::AllocError;

// The places of a row: where each leads, and what it costs.
#[derive(Drop)]
struct Places<'a, C: Cost> {
    heads: &'a [u32],
    costs: &'a CostRow<'a, C>,
}

impl<C: Cost> Search<C> {
    // Settles the nearest vertex, and gives it, or none where none was left to settle.
    #[inline(always)]
    pub(crate) fn settle_next<T: Steps<C>>(
        &mut self,
        steps: &T,
        starts: &[Start<C>],
    ) -> Result<Option<u32>, AllocError>
        requires ready { T.ready steps.now }
        requires under_way { IsUnderWay C.ops (T.space steps.now) starts.now self.old }
        ensures under_way { OnOk result (IsUnderWay C.ops (T.space steps.now) starts.now self.new) }
        ensures fewer { IfOk result (λ next. IfSome next (λ v. FewerOpen (T.space steps.now) self.old self.new)) }
        ensures settles { IfOk result (λ next. IfSome next (λ v. settled_of self.new.labels ≡ changed (settled_of self.old.labels) v true)) }
        ensures empty { IfOk result (λ next. IfNone next (self.new.queue ≡ [])) }
        ensures same { IfOk result (λ next. IfNone next (settled_of self.new.labels ≡ settled_of self.old.labels)) }
    {
        let _ = starts;
        match self.nearest() {
            Some((v, label)) => {
                self.put_node(steps, v, label)?;
                Ok(Some(v))
            }
            None => Ok(None),
        }
    }

    // Takes the entry of the least key that isn't passed over, settles its vertex, and gives it with its label.
    #[inline(always)]
    fn nearest(&mut self) -> Option<(u32, Label<C>)>
        ensures some { IfSome result (λ x. IsNearest C.ops (label_of self.old.labels) (settled_of self.old.labels) self.old.queue self.new.queue x.0 x.1) }
        ensures settles { IfSome result (λ x. settled_of self.new.labels ≡ changed (settled_of self.old.labels) x.0 true) }
        ensures none { IfNone result (Skips C.ops (label_of self.old.labels) (settled_of self.old.labels) self.old.queue self.new.queue) }
        ensures empty { IfNone result (self.new.queue ≡ []) }
        ensures same { IfNone result (settled_of self.new.labels ≡ settled_of self.old.labels) }
        ensures labels { label_of self.new.labels ≡ label_of self.old.labels }
        ensures tree { self.new.tree.items ≡ self.old.tree.items }
        ensures rows { self.new.rows ≡ self.old.rows }
    {
        while let Some(entry) = self.queue.pop() {
            if let Some(label) = settle_at(&mut self.labels, entry) {
                return Some((entry.1, label));
            }
        }
        None
    }

    // Puts the node of the vertex, which was taken from the queue and settled at its label, and
    // offers labels along the hops out of it.
    #[inline(always)]
    fn put_node<T: Steps<C>>(
        &mut self,
        steps: &T,
        v: u32,
        label: Label<C>,
    ) -> Result<(), AllocError>
        requires ready { T.ready steps.now }
        requires taken { IsTaken C.ops (T.space steps.now) self.old v label }
        requires rows { AreBounds C.ops (T.space steps.now) (label_of self.old.labels) (value_of self.old.rows.rows) }
        ensures front { OnOk result (IsFront C.ops (T.space steps.now) self.new.tree.items (label_of self.new.labels) (settled_of self.new.labels) self.new.queue) }
        ensures grows { OnOk result (OnlyGrows C.ops (T.space steps.now) [] self.old self.new) }
        ensures rows { OnOk result (AreBounds C.ops (T.space steps.now) (label_of self.new.labels) (value_of self.new.rows.rows)) }
    {
        let at = self.tree.len();
        let node = Node {
            cost: label.cost,
            vertex: v,
            before: Link::to(label.node)?,
        };
        self.tree.push(node)?;
        self.expand(steps, at, node)?;
        Ok(())
    }

    // Offers a label along each hop out of the node.
    pub(crate) fn expand<T: Steps<C>>(
        &mut self,
        steps: &T,
        at: usize,
        node: Node<C>,
    ) -> Result<(), AllocError>
        requires ready { T.ready steps.now }
        requires at_work { IsAtWork C.ops (T.space steps.now) self.old at node }
        requires near { C.ops.units node.cost (2 ^ 30) }
        requires rows { AreBounds C.ops (T.space steps.now) (label_of self.old.labels) (value_of self.old.rows.rows) }
        ensures at_work { OnOk result (IsAtWork C.ops (T.space steps.now) self.new at node) }
        ensures grows { OnOk result (OnlyGrows C.ops (T.space steps.now) [] self.old self.new) }
        ensures expanded { OnOk result (Expanded C.ops (T.space steps.now) (label_of self.new.labels) node.vertex node.cost) }
        ensures rows { OnOk result (AreBounds C.ops (T.space steps.now) (label_of self.new.labels) (value_of self.new.rows.rows)) }
    {
        let row = steps.row(node.vertex);
        self.expand_arcs(steps, at, node, row)?;
        self.expand_row(steps, at, node, row)?;
        Ok(())
    }

    // Offers a label along each arc out of the node, whose row has this name.
    #[inline(always)]
    fn expand_arcs<T: Steps<C>>(
        &mut self,
        steps: &T,
        at: usize,
        node: Node<C>,
        row: (u32, u32),
    ) -> Result<(), AllocError>
        requires ready { T.ready steps.now }
        requires at_work { IsAtWork C.ops (T.space steps.now) self.old at node }
        requires row { row ≡ (T.space steps.now).row node.vertex }
        ensures at_work { OnOk result (IsAtWork C.ops (T.space steps.now) self.new at node) }
        ensures falls { OnOk result (OnlyFalls C.ops self.old self.new) }
        ensures found { OnOk result ((i w : ℕ) (s : _) → (T.space steps.now).Arc node.vertex i w s → LabelWithin C.ops (label_of self.new.labels) w (C.ops.plus node.cost s)) }
        ensures rows { OnOk result (self.new.rows ≡ self.old.rows) }
    {
        let arcs = steps.arcs_named(node.vertex, row);
        self.go_along(steps, at, node, row, &arcs)?;
        Ok(())
    }

    // Offers a label along each of these arcs out of the node, whose row has this name.
    #[inline(always)]
    fn go_along<T: Steps<C>>(
        &mut self,
        steps: &T,
        at: usize,
        node: Node<C>,
        row: (u32, u32),
        arcs: &ArcRow<'_>,
    ) -> Result<(), AllocError>
        requires ready { T.ready steps.now }
        requires at_work { IsAtWork C.ops (T.space steps.now) self.old at node }
        requires row { row ≡ (T.space steps.now).row node.vertex }
        requires named { (i : ℕ) → Contains arcs.now i → (T.space steps.now).Name node.vertex i }
        ensures at_work { OnOk result (IsAtWork C.ops (T.space steps.now) self.new at node) }
        ensures falls { OnOk result (OnlyFalls C.ops self.old self.new) }
        ensures found { OnOk result ((i w : ℕ) (s : _) → Contains arcs.now i → (T.space steps.now).Arc node.vertex i w s → LabelWithin C.ops (label_of self.new.labels) w (C.ops.plus node.cost s)) }
        ensures rows { OnOk result (self.new.rows ≡ self.old.rows) }
    {
        for place in 0..arcs.len() {
            let hop = steps.by_arc_named(node.vertex, row, arcs.get(place));
            self.relax(steps, at, node, hop)?;
        }
        Ok(())
    }

    // Offers a label along each place of the node's row, which has this name.
    fn expand_row<T: Steps<C>>(
        &mut self,
        steps: &T,
        at: usize,
        node: Node<C>,
        row: (u32, u32),
    ) -> Result<(), AllocError>
        requires ready { T.ready steps.now }
        requires at_work { IsAtWork C.ops (T.space steps.now) self.old at node }
        requires near { C.ops.units node.cost (2 ^ 30) }
        requires rows { AreBounds C.ops (T.space steps.now) (label_of self.old.labels) (value_of self.old.rows.rows) }
        requires row { row ≡ (T.space steps.now).row node.vertex }
        requires same { (u : ℕ) → (T.space steps.now).row u ≡ (T.space steps.now).row node.vertex → (T.space steps.now).heads u ≡ (T.space steps.now).heads node.vertex }
        ensures at_work { OnOk result (IsAtWork C.ops (T.space steps.now) self.new at node) }
        ensures grows { OnOk result (OnlyGrows C.ops (T.space steps.now) [] self.old self.new) }
        ensures found { OnOk result ((j w : ℕ) (s : _) → slice_get ((T.space steps.now).heads node.vertex) j ≡ Some w → (T.space steps.now).Costs node.vertex j s → LabelWithin C.ops (label_of self.new.labels) w (C.ops.plus node.cost s)) }
        ensures rows { OnOk result (AreBounds C.ops (T.space steps.now) (label_of self.new.labels) (value_of self.new.rows.rows)) }
    {
        let costs = steps.costs_named(node.vertex, row);
        if costs.is_empty() {
            return Ok(());
        }
        let heads = steps.heads_named(node.vertex, row);
        self.rows.lower(row, node.cost, &costs, heads.len())?;
        let places = Places {
            heads,
            costs: &costs,
        };
        self.offer_improved(steps, at, node, row, &places)?;
        Ok(())
    }

    // Offers a label along each improved place of the node's row.
    fn offer_improved<T: Steps<C>>(
        &mut self,
        steps: &T,
        at: usize,
        node: Node<C>,
        row: (u32, u32),
        places: &Places<C>,
    ) -> Result<(), AllocError>
        requires ready { T.ready steps.now }
        requires at_work { IsAtWork C.ops (T.space steps.now) self.old at node }
        requires near { C.ops.units node.cost (2 ^ 30) }
        requires row { row ≡ (T.space steps.now).row node.vertex }
        requires heads { places.now.heads.now ≡ (T.space steps.now).heads node.vertex }
        requires costs { (j : ℕ) (s : _) → slice_get places.now.costs.now j ≡ Some (Some s) → (T.space steps.now).Costs node.vertex j s }
        requires within { (j : ℕ) → Contains self.old.rows.improved.items j → j < length places.now.heads.now }
        ensures at_work { OnOk result (IsAtWork C.ops (T.space steps.now) self.new at node) }
        ensures grows { OnOk result (OnlyGrows C.ops (T.space steps.now) [] self.old self.new) }
        ensures rows { OnOk result (self.new.rows ≡ self.old.rows) }
        ensures found { OnOk result ((j w : ℕ) (s : _) → Contains self.old.rows.improved.items j → slice_get places.now.heads.now j ≡ Some w → slice_get places.now.costs.now j ≡ Some (Some s) → LabelWithin C.ops (label_of self.new.labels) w (C.ops.plus node.cost s)) }
    {
        for k in 0..self.rows.improved.len() {
            let place = self.rows.improved[k];
            let hop = hop_at(places.heads, places.costs, place);
            self.go_by_row(steps, at, node, row, place, hop)?;
        }
        Ok(())
    }

    // Goes along a hop of the node's row, which has this name, by its place there, where that way is open: leads on from its
    // head where nothing but arcs leads out of that, and else offers it a label.
    #[inline(always)]
    fn go_by_row<T: Steps<C>>(
        &mut self,
        steps: &T,
        at: usize,
        node: Node<C>,
        row: (u32, u32),
        place: usize,
        hop: Option<Hop<C>>,
    ) -> Result<(), AllocError>
        requires ready { T.ready steps.now }
        requires at_work { IsAtWork C.ops (T.space steps.now) self.old at node }
        requires near { C.ops.units node.cost (2 ^ 30) }
        requires row { row ≡ (T.space steps.now).row node.vertex }
        requires hop { IfSome hop (λ h. HasHop (T.space steps.now) node.vertex h.head h.cost) }
        requires head { IfSome hop (λ h. slice_get ((T.space steps.now).heads node.vertex) place ≡ Some h.head) }
        ensures at_work { OnOk result (IsAtWork C.ops (T.space steps.now) self.new at node) }
        ensures grows { OnOk result (OnlyGrows C.ops (T.space steps.now) [] self.old self.new) }
        ensures found { OnOk result ((w : ℕ) (s : _) → hop ≡ Some (record { head = w; cost = s }) → LabelWithin C.ops (label_of self.new.labels) w (C.ops.plus node.cost s)) }
        ensures rows { OnOk result (self.new.rows ≡ self.old.rows) }
    {
        match hop {
            None => Ok(()),
            Some(on) => {
                if let Some(arcs) = steps.leads_on(row, place, on.head) {
                    self.lead_on(steps, at, node, row, on, &arcs)?;
                    return Ok(());
                }
                self.relax(steps, at, node, Some(on))?;
                Ok(())
            }
        }
    }

    // Leads on from the head of a hop, out of which nothing but these arcs leads: where the hop improves its label, that is put,
    // with its node in the tree, and labels are offered along the arcs. So the head is expanded at its label, and isn't
    // queued: an entry at an older, dearer label is passed over.
    #[inline(always)]
    fn lead_on<T: Steps<C>>(
        &mut self,
        steps: &T,
        at: usize,
        node: Node<C>,
        row: (u32, u32),
        hop: Hop<C>,
        arcs: &ArcRow<'_>,
    ) -> Result<(), AllocError>
        requires ready { T.ready steps.now }
        requires at_work { IsAtWork C.ops (T.space steps.now) self.old at node }
        requires near { C.ops.units node.cost (2 ^ 30) }
        requires hop { HasHop (T.space steps.now) node.vertex hop.head hop.cost }
        requires leads { LeadsBy (T.space steps.now) row hop.head arcs.now }
        ensures at_work { OnOk result (IsAtWork C.ops (T.space steps.now) self.new at node) }
        ensures grows { OnOk result (OnlyGrows C.ops (T.space steps.now) [] self.old self.new) }
        ensures found { OnOk result (LabelWithin C.ops (label_of self.new.labels) hop.head (C.ops.plus node.cost hop.cost)) }
        ensures rows { OnOk result (self.new.rows ≡ self.old.rows) }
    {
        let paid = node.cost.plus(hop.cost);
        if self.labels.is_within(hop.head, paid) {
            return Ok(());
        }
        let here = self.tree.len();
        let next = Node {
            cost: paid,
            vertex: hop.head,
            before: Link::to(at)?,
        };
        self.tree.push(next)?;
        let label = Label {
            cost: paid,
            node: at,
        };
        self.labels.put(hop.head, label)?;
        self.go_along(steps, here, next, row, arcs)?;
        Ok(())
    }

    // Offers a label along a hop out of the node, where that way is open.
    #[inline(always)]
    fn relax<T: Steps<C>>(
        &mut self,
        steps: &T,
        at: usize,
        node: Node<C>,
        hop: Option<Hop<C>>,
    ) -> Result<(), AllocError>
        requires at_work { IsAtWork C.ops (T.space steps.now) self.old at node }
        requires hop { IfSome hop (λ h. HasHop (T.space steps.now) node.vertex h.head h.cost) }
        ensures at_work { OnOk result (IsAtWork C.ops (T.space steps.now) self.new at node) }
        ensures falls { OnOk result (OnlyFalls C.ops self.old self.new) }
        ensures found { OnOk result ((w : ℕ) (s : _) → hop ≡ Some (record { head = w; cost = s }) → LabelWithin C.ops (label_of self.new.labels) w (C.ops.plus node.cost s)) }
        ensures rows { OnOk result (self.new.rows ≡ self.old.rows) }
    {
        let _ = steps;
        match hop {
            Some(hop) => {
                self.offer(at, node.cost, hop)?;
                Ok(())
            }
            None => Ok(()),
        }
    }

    // Offers to the head of a hop the label that the hop gives it, behind the node at `at` where `paid` is paid. Most
    // offers improve nothing, so they end here, in the loops over arcs and rows.
    #[inline(always)]
    fn offer(&mut self, at: usize, paid: C, hop: Hop<C>) -> Result<(), AllocError>
        requires fits { C.ops.units (C.ops.plus paid hop.cost) (2 ^ 31) }
        requires fixed { settled_of self.old.labels hop.head ≡ true → LabelWithin C.ops (label_of self.old.labels) hop.head (C.ops.plus paid hop.cost) }
        ensures offers { OnOk result (Offers C.ops (label_of self.old.labels) (label_of self.new.labels) (settled_of self.old.labels) self.old.queue self.new.queue hop.head (record { cost = C.ops.plus paid hop.cost; node = at })) }
        ensures settled { OnOk result (settled_of self.new.labels ≡ settled_of self.old.labels) }
        ensures tree { OnOk result (self.new.tree.items ≡ self.old.tree.items) }
        ensures rows { OnOk result (self.new.rows ≡ self.old.rows) }
    {
        let label = Label {
            cost: paid.plus(hop.cost),
            node: at,
        };
        if self.labels.is_within(hop.head, label.cost) {
            return Ok(());
        }
        self.put(hop.head, label)?;
        Ok(())
    }

    // Puts the label in place of a dearer one, and queues its vertex.
    #[inline(never)]
    fn put(&mut self, v: u32, label: Label<C>) -> Result<(), AllocError>
        requires { settled_of self.old.labels v ≡ false }
        ensures label { OnOk result (label_of self.new.labels ≡ changed (label_of self.old.labels) v (Some label)) }
        ensures queue { OnOk result (Adds self.old.queue self.new.queue (label.cost, v)) }
        ensures settled { OnOk result (settled_of self.new.labels ≡ settled_of self.old.labels) }
        ensures tree { OnOk result (self.new.tree.items ≡ self.old.tree.items) }
        ensures rows { OnOk result (self.new.rows ≡ self.old.rows) }
    {
        self.labels.put(v, label)?;
        self.queue.push(label.cost, v)?;
        Ok(())
    }
}

// Settles the vertex of an entry that was taken from the queue, and gives its label, unless the entry is passed over. A
// vertex whose label is cheaper than the entry's key is settled already, or has led on since it was queued.
#[inline(always)]
fn settle_at<C: Cost>(labels: &mut Labels<C>, entry: (C, u32)) -> Option<Label<C>>
    ensures label { label_of labels.new ≡ label_of labels.old }
    ensures some { IfSome result (λ l. (label_of labels.old entry.1 ≡ Some l) × (settled_of labels.old entry.1 ≡ false) × NoDearer C.ops entry.0 l.cost × (settled_of labels.new ≡ changed (settled_of labels.old) entry.1 true)) }
    ensures none { IfNone result (IsPassed C.ops (label_of labels.old) (settled_of labels.old) entry.0 entry.1) }
    ensures same { IfNone result (settled_of labels.new ≡ settled_of labels.old) }
{
    let label = labels.label(entry.1)?;
    if is_less(label.cost, entry.0) {
        return None;
    }
    labels.settle(entry.1)
}

// Whether `a` is less than `b`.
#[inline(always)]
fn is_less<C: Cost>(a: C, b: C) -> bool
    ensures yes { OnTrue result (C.ops.cmp a b ≡ Less) }
    ensures no { OnFalse result (NoDearer C.ops b a) }
{
    a.cmp(&b).is_lt()
}

// The hop by a place of a row, where that has a cost.
#[inline(always)]
fn hop_at<C: Cost>(heads: &[u32], costs: &CostRow<'_, C>, place: usize) -> Option<Hop<C>>
    requires { place < length heads.now }
    ensures some { IfSome result (λ h. (slice_get heads.now place ≡ Some h.head) × (slice_get costs.now place ≡ Some (Some h.cost))) }
    ensures all { (w : ℕ) (s : _) → slice_get heads.now place ≡ Some w → slice_get costs.now place ≡ Some (Some s) → result ≡ Some (record { head = w; cost = s }) }
{
    match cost_at(costs, place) {
        Some(cost) => Some(Hop {
            head: heads[place],
            cost,
        }),
        None => None,
    }
}

// What a place of a row costs.
#[inline(always)]
fn cost_at<C: Cost>(costs: &CostRow<'_, C>, place: usize) -> Option<C>
    ensures some { IfSome result (λ s. slice_get costs.now place ≡ Some (Some s)) }
    ensures all { (s : _) → slice_get costs.now place ≡ Some (Some s) → result ≡ Some s }
{
    if place >= costs.len() {
        return None;
    }
    costs.get(place)
}
