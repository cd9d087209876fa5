//! A heap of ranks and vertices in the order of the ranks. Two entries are compared as two numbers of 128 bits, in which the
//! rank stands before the vertex, so that no branch lies between the two parts.

ghost use Rattle.std.specs.Prelude.{◌≡◌, ℕ, ◌-◌, ◌<◌, ◌^◌, [], ◌∷◌, IfSome, IfNone, OnOk, OnErr, nat_eq};
ghost use Rattle.std.proofs.Common.{rules};
ghost use Rattle.std.specs.Cmp.{partial_order_from_own_ties};
ghost use Rattle.std.specs.Cmp.Rules.{comparing};
ghost use Rattle.std.specs.List.Sorted.{IsPermutation};
ghost use Rattle.std.specs.Ordering.{nat_cmp, on, as_partial_cmp};
ghost use Rattle.search_queue.specs.Queued.{IsLeastKey, GivesLeast};
ghost use Rattle.search_queue.specs.Ranked.{number_of};

use std::alloc::{AllocError, Global};
use std::cmp::{Ordering, Reverse};
use std::collections::BinaryHeap;
use std::marker::Model;

/// What one rank more adds to an entry's number.
const RANK: u128 = 1 << 64;

// An entry of the heap: a rank, and how far its vertex is from the last number that a vertex can have. So of equal ranks the
// one with the greatest vertex comes first, as among keys that have no rank.
#[derive(Clone, Copy, Drop)]
pub struct Ranked {
    pub rank: u64,
    pub from_last: u64,
}

impl Ranked {
    // The entry of a rank and a vertex.
    #[inline(always)]
    fn of(rank: u64, vertex: u32) -> Ranked
        ensures { result ≡ record { rank = rank; from_last = 4294967295 - vertex } }
    {
        Ranked {
            rank,
            from_last: (u32::MAX - vertex) as u64,
        }
    }

    // The entry as one number.
    #[inline(always)]
    fn number(&self) -> u128
        ensures { result ≡ number_of self.now }
    {
        u128::from(self.rank) * RANK + u128::from(self.from_last)
    }

    // The vertex.
    #[inline(always)]
    fn vertex(&self) -> u32
        requires { self.now.from_last < 2 ^ 32 }
        ensures { result ≡ 4294967295 - self.now.from_last }
    {
        u32::MAX - self.from_last as u32
    }
}

impl PartialEq for Ranked {
    ghost eq = { on number_of nat_eq };

    ghost laws = { Prim.search (comparing, rules) };

    #[inline(always)]
    fn eq(&self, other: &Ranked) -> bool {
        self.number() == other.number()
    }
}

impl Eq for Ranked {
    ghost laws = { Prim.search (comparing, rules) };
}

impl PartialOrd for Ranked {
    ghost partial_cmp = { as_partial_cmp (on number_of nat_cmp) };

    ghost laws = { partial_order_from_own_ties (Prim.search (comparing, rules)) (Prim.search (comparing, rules)) };

    #[inline(always)]
    fn partial_cmp(&self, other: &Ranked) -> Option<Ordering> {
        Some(self.cmp(other))
    }
}

impl Ord for Ranked {
    ghost cmp = { on number_of nat_cmp };

    ghost total = { Prim.search (comparing, rules) };

    ghost matches_partial_cmp = { Prim.search (comparing, rules) };

    ghost matches_eq = { Prim.search (comparing, rules) };

    #[inline(always)]
    fn cmp(&self, other: &Ranked) -> Ordering {
        self.number().cmp(&other.number())
    }
}

/// Entries of a rank and a vertex. An entry costs 16 bytes.
pub struct RankHeap {
    heap: BinaryHeap<Reverse<Ranked>>,
}

impl Drop for RankHeap {
    fn drop(self) {
        let RankHeap { heap: _heap } = self;
    }
}

impl Model for RankHeap {
    ghost use Rattle.std.specs.Prelude.{ℕ, List, map};
    ghost use Rattle.std.specs.BinaryHeap.{heap_items, IsHeap};
    ghost use Rattle.search_queue.specs.Ranked.{AreNear, ranked_cmp, ranked_of};

    ghost Value = { List (ℕ × ℕ) };

    ghost view = { λ q. map ranked_of (heap_items q.heap) };

    ghost invariant = { λ q. IsHeap ranked_cmp (heap_items q.heap) × AreNear (heap_items q.heap) };
}

impl RankHeap {
    /// A heap with no entry.
    pub fn new(alloc: Global) -> RankHeap
        ensures { result ≡ [] }
    {
        RankHeap {
            heap: BinaryHeap::new(alloc),
        }
    }

    /// Takes all entries away.
    pub fn clear(&mut self)
        ensures { self.new ≡ [] }
    {
        self.heap.clear();
    }

    /// Adds an entry.
    #[inline(always)]
    pub fn push(&mut self, rank: u64, vertex: u32) -> Result<(), AllocError>
        ensures ok { OnOk result (IsPermutation ((rank, vertex) ∷ self.old) self.new) }
        ensures err { OnErr result (self.new ≡ self.old) }
    {
        let entry = Ranked::of(rank, vertex);
        self.heap.push(Reverse(entry))?;
        Ok(())
    }

    /// The least rank.
    #[inline(always)]
    pub fn least(&self) -> Option<u64>
        ensures some { IfSome result (λ r. IsLeastKey nat_cmp self.now r) }
        ensures none { IfNone result (self.now ≡ []) }
    {
        match self.heap.peek() {
            Some(Reverse(entry)) => Some(entry.rank),
            None => None,
        }
    }

    /// Takes an entry of the least rank.
    #[inline(always)]
    pub fn pop(&mut self) -> Option<(u64, u32)>
        ensures some { IfSome result (λ e. GivesLeast nat_cmp self.old self.new e) }
        ensures none { IfNone result (self.old ≡ []) }
        ensures left { IfNone result (self.new ≡ []) }
    {
        let Reverse(entry) = self.heap.pop()?;
        Some((entry.rank, entry.vertex()))
    }
}
