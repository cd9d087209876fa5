//! The tree: the keys of the items as its leaves, and in each node above them the lesser of the two below.

ghost use Rattle.std.specs.Prelude.{◌≡◌, ℕ, ◌+◌, ◌/◌, ◌<◌, ◌≤◌, Some, [], drop, get_or, length, set, replicate, IfSome, IfNone, OnOk, OnErr};
ghost use Rattle.std.specs.Bool.{OnTrue, OnFalse};
ghost use Rattle.std.specs.List.{slice_get};
ghost use Rattle.tournament_tree.specs.Keys.{Lowers, NoneBelow, TakesLeast, no_key};
ghost use Rattle.tournament_tree.specs.Nodes.{AreNodes, AreNodesBut, AreNodesBelow, IsLesser};

use std::alloc::{AllocError, Global};
use std::marker::Model;

// The word of an item without a key.
const NO_KEY: u64 = 18446744073709551615;

/// A key for each item, or none. Contracts see the list of the keys; an item without one has the greatest number there.
///
/// It costs 16 bytes an item.
pub struct TournamentTree {
    // From `count` on the keys; at each place from 1 on before them the lesser of the two words at twice that place and behind
    // it. So the least stands at 1, and nothing at 0.
    words: Vec<u64>,
    count: usize,
}

impl Drop for TournamentTree {
    fn drop(self) {
        let TournamentTree {
            words: _words,
            count: _count,
        } = self;
    }
}

impl Model for TournamentTree {
    ghost use Rattle.std.specs.Prelude.{ℕ, ◌<◌, ◌^◌, List, drop};
    ghost use Rattle.tournament_tree.specs.Nodes.{AreNodes};

    ghost Value = { List ℕ };

    ghost view = { λ t. drop t.count t.words.items };

    ghost invariant = { λ t. AreNodes t.words.items t.count × (t.count < 2 ^ 32) };
}

impl TournamentTree {
    /// No items.
    pub fn new(alloc: Global) -> TournamentTree
        ensures { result ≡ [] }
    {
        TournamentTree {
            words: Vec::new(alloc),
            count: 0,
        }
    }

    /// Begins anew with so many items, without a key each. Where memory runs out it answers the error, and there are no items.
    pub fn restart(&mut self, count: u32) -> Result<(), AllocError>
        ensures ok { OnOk result (self.new ≡ replicate count no_key) }
        ensures err { OnErr result (self.new ≡ []) }
    {
        self.words.clear();
        self.count = 0;
        self.words.resize(count as usize * 2, NO_KEY)?;
        self.count = count as usize;
        Ok(())
    }

    /// The least key, if an item has one.
    #[inline(always)]
    pub fn least(&self) -> Option<u64>
        ensures some { IfSome result (λ k. (k < no_key) × ((v : ℕ) × (slice_get self.now v ≡ Some k)) × NoneBelow self.now k) }
        ensures none { IfNone result (NoneBelow self.now no_key) }
    {
        match self.words.get(1) {
            None => None,
            Some(least) => { if *least == NO_KEY { None } else { Some(*least) } }
        }
    }

    /// Gives an item this key, if it is one of these and has a greater key or none, and tells whether it did.
    #[inline(always)]
    pub fn lower(&mut self, item: u32, key: u64) -> bool
        ensures yes { OnTrue result (Lowers self.old self.new item key) }
        ensures no { OnFalse result (self.new ≡ self.old) }
    {
        if item as usize >= self.count {
            return false;
        }
        let leaf = self.count + item as usize;
        if self.words[leaf] <= key {
            return false;
        }
        self.words[leaf] = key;
        lower_above(&mut self.words, self.count, leaf, key);
        true
    }

    /// Takes the key of an item that has the least.
    #[inline(always)]
    pub fn pop(&mut self) -> Option<(u64, u32)>
        ensures some { IfSome result (λ e. TakesLeast self.old self.new e) }
        ensures none { IfNone result (NoneBelow self.old no_key) }
        ensures left { IfNone result (self.new ≡ self.old) }
    {
        let least = self.least()?;
        let leaf = leaf_of(&self.words, self.count, least);
        self.words[leaf] = NO_KEY;
        raise_above(&mut self.words, self.count, leaf);
        Some((least, (leaf - self.count) as u32))
    }
}

// Where among the leaves the least key stands.
#[inline(always)]
fn leaf_of(words: &[u64], count: usize, least: u64) -> usize
    requires nodes { AreNodes words.now count }
    requires some { 0 < count }
    requires least { get_or words.now 1 0 ≡ least }
    ensures leaf { count ≤ result }
    ensures within { result < count + count }
    ensures there { get_or words.now result 0 ≡ least }
{
    let mut place = 1;
    while place < count {
        place = place + place;
        if words[place] != least {
            place += 1;
        }
    }
    place
}

// Lowers the words above a leaf that was lowered.
#[inline(always)]
fn lower_above(words: &mut [u64], count: usize, leaf: usize, key: u64)
    requires nodes { AreNodesBelow words.old count (leaf / 2) key }
    requires leaf { count ≤ leaf }
    requires within { leaf < count + count }
    ensures nodes { AreNodes words.new count }
    ensures leaves { drop count words.new ≡ drop count words.old }
{
    let mut place = leaf / 2;
    while place > 0 && words[place] > key {
        words[place] = key;
        place = place / 2;
    }
}

// Makes the words above a leaf anew that was raised.
#[inline(always)]
fn raise_above(words: &mut [u64], count: usize, leaf: usize)
    requires nodes { AreNodesBut words.old count (leaf / 2) }
    requires leaf { count ≤ leaf }
    requires within { leaf < count + count }
    ensures nodes { AreNodes words.new count }
    ensures leaves { drop count words.new ≡ drop count words.old }
{
    let mut place = leaf;
    let mut key = words[leaf];
    while place > 1 {
        let above = place / 2;
        key = lesser(key, words[4 * above + 1 - place]);
        if words[above] == key {
            return;
        }
        words[above] = key;
        place = above;
    }
}

// The lesser of two words.
#[inline(always)]
fn lesser(one: u64, other: u64) -> u64
    ensures { IsLesser result one other }
{
    if other < one { other } else { one }
}
