//! The queue of a search: keys and vertices, the least key first. A key that has a rank stands by it, so that two of them are
//! compared as two numbers; the others stand as they are.

ghost use Rattle.std.specs.Prelude.{◌≡◌, ◌≢◌, ℕ, [], map, IfSome, IfNone, OnOk};
ghost use Rattle.std.specs.Bool.{OnTrue, OnFalse};
ghost use Rattle.std.specs.List.{All, Contains};
ghost use Rattle.std.specs.Ordering.{nat_cmp};
ghost use Rattle.search_graph.specs.Costs.{NoDearer};
ghost use Rattle.search_queue.specs.Queued.{Adds, HasCheaper, TakesLeast, NoneBelow, IsRank, AreRanked, ranked_entry};

use crate::key_heap::KeyHeap;
use crate::rank_heap::RankHeap;
use search_graph::Cost;
use std::alloc::{AllocError, Global};
use std::marker::Model;

/// Entries of a key and a vertex, a vertex perhaps in several of them. An entry takes 16 bytes where its key has a rank.
pub struct Queue<C: Cost> {
    ranked: RankHeap,
    others: KeyHeap<C>,
}

impl<C: Cost> Drop for Queue<C> {
    fn drop(self) {
        let Queue {
            ranked: _ranked,
            others: _others,
        } = self;
    }
}

impl<C: Cost> Model for Queue<C> {
    ghost use Rattle.std.specs.Prelude.{ℕ, List, map, ◌++◌};
    ghost use Rattle.search_queue.specs.Queued.{AreRanked, ranked_entry};

    ghost Value = { List (C × ℕ) };

    ghost view = { λ q. map (ranked_entry C.unranked) q.ranked ++ q.others };

    ghost invariant = { λ q. AreRanked C.ranked C.unranked q.ranked };
}

impl<C: Cost> Queue<C> {
    /// A queue with no entry.
    pub fn new(alloc: Global) -> Queue<C>
        ensures { result ≡ [] }
    {
        Queue {
            ranked: RankHeap::new(alloc),
            others: KeyHeap::new(alloc),
        }
    }

    /// Takes all entries away.
    pub fn clear(&mut self)
        ensures { self.new ≡ [] }
    {
        self.ranked.clear();
        self.others.clear();
    }

    /// Adds an entry.
    #[inline(always)]
    pub fn push(&mut self, key: C, vertex: u32) -> Result<(), AllocError>
        ensures { OnOk result (Adds self.old self.new (key, vertex)) }
    {
        match key.rank() {
            Some(rank) => self.ranked.push(rank, vertex),
            None => self.others.push(key, vertex),
        }
    }

    /// Whether no key is less than `limit`.
    pub fn is_beyond(&self, limit: C) -> bool
        ensures yes { OnTrue result ((k : _) (v : ℕ) → Contains self.now (k, v) → NoDearer C.ops limit k) }
        ensures no { OnFalse result (HasCheaper C.ops self.now limit) }
    {
        are_ranks_beyond(&self.ranked, limit) && are_keys_beyond(&self.others, limit)
    }

    /// Takes an entry of the least key.
    #[inline(always)]
    pub fn pop(&mut self) -> Option<(C, u32)>
        ensures some { IfSome result (λ e. TakesLeast C.ops self.old self.new e) }
        ensures none { IfNone result (self.old ≡ []) }
        ensures left { IfNone result (self.new ≡ []) }
    {
        if !has_rank_first(&self.ranked, &self.others) {
            return self.others.pop();
        }
        let (rank, vertex) = self.ranked.pop()?;
        Some((C::of_rank(rank), vertex))
    }
}

// Whether no rank's cost is less than `limit`.
#[inline(always)]
fn are_ranks_beyond<C: Cost>(ranked: &RankHeap, limit: C) -> bool
    requires { AreRanked C.ranked C.unranked ranked.now }
    ensures yes { OnTrue result (All (λ (e : ℕ × ℕ). NoDearer C.ops limit (C.unranked e.0)) ranked.now) }
    ensures no { OnFalse result (HasCheaper C.ops (map (ranked_entry C.unranked) ranked.now) limit) }
{
    match ranked.least() {
        Some(least) => is_rank_beyond(least, limit),
        None => true,
    }
}

// Whether the cost of a rank isn't less than `limit`.
#[inline(always)]
fn is_rank_beyond<C: Cost>(rank: u64, limit: C) -> bool
    requires { IsRank C.ranked C.unranked rank }
    ensures yes { OnTrue result (NoDearer C.ops limit (C.unranked rank)) }
    ensures no { OnFalse result (¬ NoDearer C.ops limit (C.unranked rank)) }
{
    match limit.rank() {
        Some(last) => last <= rank,
        None => !C::of_rank(rank).cmp(&limit).is_lt(),
    }
}

// Whether no key is less than `limit`.
#[inline(always)]
fn are_keys_beyond<C: Cost>(others: &KeyHeap<C>, limit: C) -> bool
    ensures yes { OnTrue result (All (λ e. NoDearer C.ops limit e.0) others.now) }
    ensures no { OnFalse result (HasCheaper C.ops others.now limit) }
{
    match others.least() {
        Some(least) => !least.cmp(&limit).is_lt(),
        None => true,
    }
}

// Whether a rank comes first: then no other key is less than the cost of the least one, and else no rank's cost is less than
// the least key. Where there are no others, nothing is compared.
#[inline(always)]
fn has_rank_first<C: Cost>(ranked: &RankHeap, others: &KeyHeap<C>) -> bool
    requires { AreRanked C.ranked C.unranked ranked.now }
    ensures yes { OnTrue result ((r : ℕ) → IsRank C.ranked C.unranked r → NoneBelow nat_cmp r ranked.now → All (λ e. NoDearer C.ops (C.unranked r) e.0) others.now) }
    ensures no { OnFalse result ((k : C) → NoneBelow C.cmp k others.now → All (λ (e : ℕ × ℕ). NoDearer C.ops k (C.unranked e.0)) ranked.now) }
    ensures no_rank { OnTrue result (ranked.now ≡ [] → others.now ≡ []) }
    ensures no_key { OnFalse result (others.now ≢ []) }
{
    match others.least() {
        Some(key) => match ranked.least() {
            Some(rank) => !key.cmp(&C::of_rank(rank)).is_lt(),
            None => false,
        },
        None => true,
    }
}
