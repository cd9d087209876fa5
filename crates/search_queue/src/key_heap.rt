//! A heap of keys and vertices in the order of the keys, whatever the keys are.

ghost use Rattle.std.specs.Prelude.{◌≡◌, [], ◌∷◌, IfSome, IfNone, OnOk, OnErr};
ghost use Rattle.std.specs.List.Sorted.{IsPermutation};
ghost use Rattle.search_queue.specs.Queued.{IsLeastKey, GivesLeast};

use std::alloc::{AllocError, Global};
use std::cmp::Reverse;
use std::collections::BinaryHeap;
use std::marker::Model;

/// Entries of a key and a vertex. An entry costs the size of a key and eight bytes.
pub struct KeyHeap<K: Copy + Ord> {
    // A vertex takes eight bytes, so that an entry is read back as it was written: with four unused ones that were written
    // apart, a processor would wait for them at each push.
    heap: BinaryHeap<(Reverse<K>, u64)>,
}

impl<K: Copy + Ord> Drop for KeyHeap<K> {
    fn drop(self) {
        let KeyHeap { heap: _heap } = self;
    }
}

impl<K: Copy + Ord> Model for KeyHeap<K> {
    ghost use Rattle.std.specs.Prelude.{ℕ, List, map};
    ghost use Rattle.std.specs.BinaryHeap.{heap_items, IsHeap};
    ghost use Rattle.search_queue.specs.Queued.{AreShort, entry_cmp, entry_of};

    ghost Value = { List (K × ℕ) };

    ghost view = { λ q. map entry_of (heap_items q.heap) };

    ghost invariant = { λ q. IsHeap (entry_cmp K.cmp) (heap_items q.heap) × AreShort (heap_items q.heap) };
}

impl<K: Copy + Ord> KeyHeap<K> {
    /// A heap with no entry.
    pub fn new(alloc: Global) -> KeyHeap<K>
        ensures { result ≡ [] }
    {
        KeyHeap {
            heap: BinaryHeap::new(alloc),
        }
    }

    /// Takes all entries away.
    pub fn clear(&mut self)
        ensures { self.new ≡ [] }
    {
        self.heap.clear();
    }

    /// Adds an entry.
    #[inline(always)]
    pub fn push(&mut self, key: K, vertex: u32) -> Result<(), AllocError>
        ensures ok { OnOk result (IsPermutation ((key, vertex) ∷ self.old) self.new) }
        ensures err { OnErr result (self.new ≡ self.old) }
    {
        self.heap.push((Reverse(key), vertex as u64))?;
        Ok(())
    }

    /// The least key.
    #[inline(always)]
    pub fn least(&self) -> Option<K>
        ensures some { IfSome result (λ k. IsLeastKey K.cmp self.now k) }
        ensures none { IfNone result (self.now ≡ []) }
    {
        match self.heap.peek() {
            Some((Reverse(key), _)) => Some(*key),
            None => None,
        }
    }

    /// Takes an entry of the least key.
    #[inline(always)]
    pub fn pop(&mut self) -> Option<(K, u32)>
        ensures some { IfSome result (λ e. GivesLeast K.cmp self.old self.new e) }
        ensures none { IfNone result (self.old ≡ []) }
        ensures left { IfNone result (self.new ≡ []) }
    {
        let (Reverse(key), vertex) = self.heap.pop()?;
        Some((key, vertex as u32))
    }
}
