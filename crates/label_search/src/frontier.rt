//! From where a search has still to go on: a tournament tree of ranks beside a queue.

ghost use Rattle.std.specs.Prelude.{◌≡◌, [], IfSome, IfNone, OnOk};
ghost use Rattle.label_search.specs.Waiting.{TakesCheapest, Waits};

use search_graph::Cost;
use search_queue::Queue;
use std::alloc::{AllocError, Global};
use std::marker::Model;
use tournament_tree::TournamentTree;

/// The entries from which a search has still to go on: those of ranked costs in a tournament tree, where the space is dense,
/// and all others in a queue.
///
/// In the tree a vertex has one entry, which falls in its place; in the queue it may have several.
pub struct Frontier<C: Cost> {
    tree: TournamentTree,
    queue: Queue<C>,
}

impl<C: Cost> Drop for Frontier<C> {
    fn drop(self) {
        let Frontier {
            tree: _tree,
            queue: _queue,
        } = self;
    }
}

impl<C: Cost> Model for Frontier<C> {
    ghost use Rattle.std.specs.Prelude.{ℕ, List, ◌++◌};
    ghost use Rattle.label_search.specs.Waiting.{AreRankKeys, waiting};

    ghost Value = { List (C × ℕ) };

    ghost view = { λ f. waiting C.unranked 0 f.tree ++ f.queue };

    ghost invariant = { λ f. AreRankKeys C.ranked C.unranked f.tree };
}

impl<C: Cost> Frontier<C> {
    /// No entries, and a tree of no vertices.
    pub fn new(alloc: Global) -> Frontier<C>
        ensures { result ≡ [] }
    {
        Frontier {
            tree: TournamentTree::new(alloc),
            queue: Queue::new(alloc),
        }
    }

    /// Begins anew without entries, with a tree of so many vertices: with 0, all entries are to stand in the queue.
    pub fn restart(&mut self, count: u32) -> Result<(), AllocError>
        ensures { OnOk result (self.new ≡ []) }
    {
        self.queue.clear();
        self.tree.restart(count)
    }

    /// Adds an entry. Where its vertex has one in the tree that costs more, this one takes that one's place; where it has one
    /// that costs no more, or the tree hasn't that vertex, it goes into the queue.
    #[inline(always)]
    pub fn push(&mut self, cost: C, v: u32) -> Result<(), AllocError>
        ensures { OnOk result (Waits self.old self.new (cost, v)) }
    {
        match cost.rank() {
            Some(rank) => {
                if self.tree.lower(v, rank) {
                    Ok(())
                } else {
                    self.queue.push(cost, v)
                }
            }
            None => self.queue.push(cost, v),
        }
    }

    /// Takes an entry of the least cost.
    #[inline(always)]
    pub fn pop(&mut self) -> Option<(C, u32)>
        ensures some { IfSome result (λ e. TakesCheapest C.ops self.old self.new e) }
        ensures none { IfNone result (self.old ≡ []) }
    {
        match self.tree.least() {
            None => self.queue.pop(),
            Some(rank) => {
                if !self.queue.is_beyond(C::of_rank(rank)) {
                    return self.queue.pop();
                }
                let (rank, v) = self.tree.pop()?;
                Some((C::of_rank(rank), v))
            }
        }
    }
}
