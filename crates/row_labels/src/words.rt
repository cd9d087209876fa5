//! A list of costs, of which each may be missing, in a word each. Most words are ranks, which tell without a look at costs how
//! a sum of two compares.

ghost use Rattle.std.specs.Prelude.{◌≡◌, ℕ, ◌+◌, ◌^◌, ◌<◌, ◌≤◌, ◌++◌, List, [], length, replicate, set, Some, None, IfOk, OnOk, OnErr};
ghost use Rattle.std.specs.Bool.{OnTrue, OnFalse};
ghost use Rattle.std.specs.List.{slice_get};
ghost use Rattle.row_labels.specs.Worded.{value_at, IsPlaced, IsRankOrPlace, IsWithinRank};

use search_graph::Cost;
use std::alloc::{AllocError, Global};
use std::marker::Model;

// From here on a word is the place of a cost among the others; below, it is a rank.
const PLACES: u64 = 9223372036854775808;

// As many others have places: no list of costs that take memory is as long.
const MOST: usize = 9223372036854775807;

// The word for no cost.
const NONE: u64 = 18446744073709551615;

/// The list. Contracts see the `Option`s that were put in.
pub struct Words<C: Cost> {
    words: Vec<u64>,
    // the costs without a rank, in the order in which they were put
    others: Vec<C>,
}

impl<C: Cost> Drop for Words<C> {
    fn drop(self) {
        let Words {
            words: _words,
            others: _others,
        } = self;
    }
}

impl<C: Cost> Model for Words<C> {
    ghost use Rattle.std.specs.Prelude.{List, Option};
    ghost use Rattle.row_labels.specs.Worded.{values_of, AreWorded};

    ghost Value = { List (Option C) };

    ghost view = { λ s. values_of C.unranked s.others.items s.words.items };

    ghost invariant = { λ s. AreWorded C.ranked C.unranked s.others.items s.words.items };
}

// What a word stands for.
#[inline(always)]
fn value<C: Cost>(word: u64, others: &[C]) -> Option<C>
    ensures { result ≡ value_at C.unranked others.now word }
{
    if word < PLACES {
        Some(C::of_rank(word))
    } else {
        others.get((word - PLACES) as usize).copied()
    }
}

impl<C: Cost> Words<C> {
    /// An empty list.
    pub fn new(alloc: Global) -> Words<C>
        ensures { result ≡ [] }
    {
        Words {
            words: Vec::new(alloc),
            others: Vec::new(alloc),
        }
    }

    /// How many places there are.
    #[inline(always)]
    pub fn len(&self) -> usize
        ensures { result ≡ length self.now }
    {
        self.words.len()
    }

    /// The cost at place `i`.
    #[inline(always)]
    pub fn get(&self, i: usize) -> Option<C>
        requires { i < length self.now }
        ensures { slice_get self.now i ≡ Some result }
    {
        value(self.words[i], self.others.as_slice())
    }

    /// The words of `count` places from `first` on. One below 2^63 says that the cost at its place has a rank, which is the word.
    /// It looks at no cost.
    #[inline(always)]
    pub fn block(&self, first: usize, count: usize) -> &[u64]
        requires within { first + count ≤ length self.now }
        requires small { first + count < 2 ^ 64 }
        ensures long { length result.now ≡ count }
        ensures ranks { (i w : ℕ) → slice_get result.now i ≡ Some w → w < 2 ^ 63 → IsWithinRank C.ranked self.now (first + i) w }
    {
        let words = self.words.as_slice();
        &words[first..first + count]
    }

    /// Puts the cost of a rank at place `i` if there is none, or one of a higher rank, and tells whether it did. It looks at no
    /// cost, and leaves one without a rank as it is.
    #[inline(always)]
    pub fn lower(&mut self, i: usize, rank: u64) -> bool
        requires there { i < length self.old }
        requires rank { C.ranked (C.unranked rank) ≡ Some rank }
        ensures yes { OnTrue result (self.new ≡ set self.old i (Some (C.unranked rank))) }
        ensures no { OnFalse result (self.new ≡ self.old) }
        ensures long { length self.new ≡ length self.old }
    {
        let word = self.words[i];
        if word <= rank || (word >= PLACES && word != NONE) {
            return false;
        }
        self.words[i] = rank;
        true
    }

    /// Puts a cost in place of what is at `i`.
    pub fn put(&mut self, i: usize, cost: C) -> Result<(), AllocError>
        requires { i < length self.old }
        ensures put { OnOk result (self.new ≡ set self.old i (Some cost)) }
        ensures long { length self.new ≡ length self.old }
    {
        let word = word_of(cost, &mut self.others)?;
        self.words[i] = word;
        Ok(())
    }

    /// Puts so many places without a cost at the end.
    pub fn extend(&mut self, count: usize) -> Result<(), AllocError>
        requires { length self.old + count < 2 ^ 64 }
        ensures extended { OnOk result (self.new ≡ self.old ++ replicate count None) }
        ensures kept { OnErr result (self.new ≡ self.old) }
    {
        let long = self.words.len() + count;
        self.words.resize(long, NONE)
    }

    /// Takes all places away, and keeps the memory.
    pub fn clear(&mut self)
        ensures { self.new ≡ [] }
    {
        self.words.clear();
        self.others.clear();
    }
}

// The word for a cost, which is put among the others where it has no rank.
#[inline(always)]
fn word_of<C: Cost>(cost: C, others: &mut Vec<C>) -> Result<u64, AllocError>
    requires few { length others.old.items < 2 ^ 63 }
    ensures value { IfOk result (λ word. value_at C.unranked others.new.items word ≡ Some cost) }
    ensures placed { IfOk result (λ word. IsPlaced others.new.items word) }
    ensures ranked { IfOk result (λ word. IsRankOrPlace C.ranked C.unranked word) }
    ensures few { length others.new.items < 2 ^ 63 }
    ensures grown { (more : List C) × (others.new.items ≡ others.old.items ++ more) }
{
    match cost.rank() {
        Some(rank) => Ok(rank),
        None => add_other(cost, others),
    }
}

// Puts a cost among the others, and gives the word for it. Where there is no place left it answers the error, as where memory
// runs out.
fn add_other<C: Cost>(cost: C, others: &mut Vec<C>) -> Result<u64, AllocError>
    requires few { length others.old.items < 2 ^ 63 }
    ensures value { IfOk result (λ word. value_at C.unranked others.new.items word ≡ Some cost) }
    ensures placed { IfOk result (λ word. IsPlaced others.new.items word) }
    ensures ranked { IfOk result (λ word. IsRankOrPlace C.ranked C.unranked word) }
    ensures few { length others.new.items < 2 ^ 63 }
    ensures grown { (more : List C) × (others.new.items ≡ others.old.items ++ more) }
{
    let place = others.len();
    if place >= MOST {
        return Err(AllocError);
    }
    others.push(cost)?;
    Ok(PLACES + place as u64)
}
