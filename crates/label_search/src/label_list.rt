//! The labels of vertices side by side, each by its rank where it has one.

ghost use Rattle.std.specs.Prelude.{◌≡◌, ◌<◌, ◌≤◌, Some, None, [], length, set, replicate, OnOk};
ghost use Rattle.std.specs.Bool.{OnTrue};
ghost use Rattle.std.specs.List.{slice_get};
ghost use Rattle.label_search.specs.Ranked.{IsWithinRank, unranked_label};

use search_graph::Cost;
use std::alloc::{AllocError, Global};
use std::marker::Model;

// The word of a vertex without a label.
const NONE: u64 = 18446744073709551615;

// The word of a vertex whose label has no rank. As the other, it is above each sum of the ranks of a label and an arc.
const UNRANKED: u64 = 18446744073709551614;

/// A label for each vertex, or none. Contracts see the list.
///
/// A vertex has a word of eight bytes, which is the rank of its label where that has one, and beside it room for a cost. To
/// take all labels away writes the words alone.
pub struct LabelList<C: Cost> {
    words: Vec<u64>,
    // by vertex: its label where that has no rank, and else whatever stood there
    costs: Vec<C>,
}

impl<C: Cost> Drop for LabelList<C> {
    fn drop(self) {
        let LabelList {
            words: _words,
            costs: _costs,
        } = self;
    }
}

impl<C: Cost> Model for LabelList<C> {
    ghost use Rattle.std.specs.Prelude.{List, Option};
    ghost use Rattle.label_search.specs.Ranked.{AreRankedWords, labels_of};

    ghost Value = { List (Option C) };

    ghost view = { λ l. labels_of C.unranked l.words.items l.costs.items };

    ghost invariant = { λ l. AreRankedWords C.ranked C.unranked l.words.items l.costs.items };
}

impl<C: Cost> LabelList<C> {
    /// No vertices.
    pub fn new(alloc: Global) -> LabelList<C>
        ensures { result ≡ [] }
    {
        LabelList {
            words: Vec::new(alloc),
            costs: Vec::new(alloc),
        }
    }

    /// Begins anew with so many vertices, without a label each.
    pub fn restart(&mut self, count: u32) -> Result<(), AllocError>
        ensures { OnOk result (self.new ≡ replicate count None) }
    {
        let count = count as usize;
        if self.costs.len() < count {
            self.costs.resize(count, C::ZERO)?;
        }
        self.words.clear();
        self.words.resize(count, NONE)?;
        Ok(())
    }

    /// How many vertices there are.
    #[inline(always)]
    pub fn len(&self) -> usize
        ensures { result ≡ length self.now }
    {
        self.words.len()
    }

    /// The label of a vertex.
    #[inline(always)]
    pub fn get(&self, v: u32) -> Option<C>
        requires { v < length self.now }
        ensures { slice_get self.now v ≡ Some result }
    {
        let word = self.words[v as usize];
        if word < UNRANKED {
            return Some(C::of_rank(word));
        }
        if word == NONE {
            return None;
        }
        Some(self.costs[v as usize])
    }

    /// Gives a vertex a label.
    #[inline(always)]
    pub fn put(&mut self, v: u32, label: C)
        requires { v < length self.old }
        ensures { self.new ≡ set self.old v (Some label) }
    {
        match label.rank() {
            Some(rank) => self.words[v as usize] = rank,
            None => {
                self.words[v as usize] = UNRANKED;
                self.costs[v as usize] = label;
            }
        }
    }

    /// Whether the label of a vertex has a rank, which is no more than this one. It looks at no cost.
    #[inline(always)]
    pub fn is_within(&self, v: u32, rank: u64) -> bool
        requires vertex { v < length self.now }
        requires rank { rank < unranked_label }
        ensures { OnTrue result (IsWithinRank C.ranked self.now v rank) }
    {
        self.words[v as usize] <= rank
    }
}
