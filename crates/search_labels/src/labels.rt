//! The labels of the vertices that a search has come to. They stand in slots, and a slot is made when its vertex is first
//! labelled.

ghost use Rattle.std.specs.Prelude.{◌≡◌, ◌⊎◌, ℕ, [], true, false, Some, None, IfSome, IfNone, OnOk};
ghost use Rattle.std.specs.Bool.{OnTrue, OnFalse};
ghost use Rattle.search_labels.specs.Labelled.{label_of, settled_of, changed, LabelWithin, Improves};
ghost use Rattle.search_labels.specs.Worded.{read_label};

use crate::slots::Slots;
use crate::words::{cost_of, is_within, word_of};
use search_graph::Cost;
use std::alloc::{AllocError, Global};
use std::marker::Model;

/// The cheapest way to a vertex so far: what is paid up to it and with it, and the node of the tree that it
/// is one hop behind.
#[derive(Clone, Copy, Drop)]
pub struct Label<C> {
    pub cost: C,
    pub node: usize,
}

/// What a search knows of a vertex: nothing, a label, or a label than which no cheaper way can come.
#[derive(Clone, Copy, Drop)]
pub enum Slot<C> {
    Untouched,
    Labelled { node: u32, cost: C },
    Settled { node: u32, cost: C },
}

/// The labels by vertex. In place of a cost a slot has its rank, or its place among those that have
/// none.
pub struct Labels<C: Cost> {
    slots: Slots<u64>,
    // the costs without a rank, in the order in which they were put
    others: Vec<C>,
}

impl<C: Cost> Drop for Labels<C> {
    fn drop(self) {
        let Labels {
            slots: _slots,
            others: _others,
        } = self;
    }
}

impl<C: Cost> Model for Labels<C> {
    ghost use Rattle.std.specs.Prelude.{List};
    ghost use Rattle.search_labels.specs.declared.labels.Slot.{Slot};
    ghost use Rattle.search_labels.specs.Worded.{AreWorded, read_slots};

    ghost Value = { List (Slot C) };

    ghost view = { λ s. read_slots C.unranked s.others.items s.slots };

    ghost invariant = { λ s. AreWorded s.others.items s.slots };
}

impl<C: Cost> Labels<C> {
    /// No labels.
    pub fn new(alloc: Global) -> Labels<C>
        ensures { result ≡ [] }
    {
        Labels {
            slots: Slots::new(alloc),
            others: Vec::new(alloc),
        }
    }

    /// Takes all labels away, and keeps their memory.
    pub fn clear(&mut self)
        ensures label { (v : ℕ) → label_of self.new v ≡ None }
        ensures settled { (v : ℕ) → settled_of self.new v ≡ false }
    {
        self.slots.clear();
        self.others.clear();
    }

    /// The label of `v`, if it has one.
    #[inline(always)]
    pub fn label(&self, v: u32) -> Option<Label<C>>
        ensures { result ≡ label_of self.now v }
    {
        match self.slots.read(v) {
            Slot::Untouched => None,
            Slot::Labelled { node, cost } => Some(labelled(
                node as usize,
                cost,
                self.others.as_slice(),
            )),
            Slot::Settled { node, cost } => Some(labelled(
                node as usize,
                cost,
                self.others.as_slice(),
            )),
        }
    }

    /// Whether `v` has a label that costs no more than `cost`.
    #[inline(always)]
    pub fn is_within(&self, v: u32, cost: C) -> bool
        ensures yes { OnTrue result (LabelWithin C.ops (label_of self.now) v cost) }
        ensures no { OnFalse result (Improves C.ops (label_of self.now) v cost) }
    {
        match self.slots.read(v) {
            Slot::Untouched => false,
            Slot::Labelled { cost: word, .. } => is_within(word, cost, self.others.as_slice()),
            Slot::Settled { cost: word, .. } => is_within(word, cost, self.others.as_slice()),
        }
    }

    /// Whether `v` is settled.
    pub fn is_settled(&self, v: u32) -> bool
        ensures { result ≡ settled_of self.now v }
    {
        match self.slots.read(v) {
            Slot::Untouched => false,
            Slot::Labelled { .. } => false,
            Slot::Settled { .. } => true,
        }
    }

    /// Gives `v`, which isn't settled, a label in place of the one that it had. A node past 2^31 - 1 is
    /// answered by the error, as where memory runs out.
    #[inline(always)]
    pub fn put(&mut self, v: u32, label: Label<C>) -> Result<(), AllocError>
        requires { settled_of self.old v ≡ false }
        ensures label { OnOk result (label_of self.new ≡ changed (label_of self.old) v (Some label)) }
        ensures settled { OnOk result (settled_of self.new ≡ settled_of self.old) }
    {
        let cost = word_of(label.cost, &mut self.others)?;
        let node = label.node;
        self.slots.put(v, Label { cost, node })?;
        Ok(())
    }

    /// Settles `v` where it has a label and isn't settled, and gives the label. Else it changes
    /// nothing.
    #[inline(always)]
    pub fn settle(&mut self, v: u32) -> Option<Label<C>>
        ensures label { label_of self.new ≡ label_of self.old }
        ensures some { IfSome result (λ l. (label_of self.old v ≡ Some l) × (settled_of self.old v ≡ false) × (settled_of self.new ≡ changed (settled_of self.old) v true)) }
        ensures none { IfNone result ((settled_of self.new ≡ settled_of self.old) × ((settled_of self.old v ≡ true) ⊎ (label_of self.old v ≡ None))) }
    {
        let label = self.slots.settle(v)?;
        Some(labelled(label.node, label.cost, self.others.as_slice()))
    }
}

// The label with this node and this word.
#[inline(always)]
fn labelled<C: Cost>(node: usize, word: u64, others: &[C]) -> Label<C>
    ensures { result ≡ read_label C.unranked others.now node word }
{
    let cost = cost_of(word, others);
    Label { cost, node }
}
