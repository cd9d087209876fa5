//! The rows, and offers along them.

ghost use Rattle.std.specs.Prelude.{◌≡◌, ℕ, ◌+◌, ◌<◌, ◌≤◌, ◌^◌, [], length, set, IfOk, Some, None, OnOk};
ghost use Rattle.std.specs.Bool.{OnTrue, OnFalse};
ghost use Rattle.std.specs.List.{slice_get};
ghost use Rattle.row_labels.specs.Rowed.{span_of, value_in, value_of, LowersRow};
ghost use Rattle.row_labels.specs.Blocks.{AreApart};
ghost use Rattle.row_labels.specs.Lowered.{AreAdded, IsToldOver, IsOver, IsOffered, LowersAt, Lowers};

use crate::blocks::{Blocks, Span};
use crate::words::Words;
use cost_lists::CostRow;
use search_graph::Cost;
use std::alloc::{AllocError, Global};
use std::marker::Model;

/// What is kept at the places of the rows. Contracts see where each row's values stand, and the values: `value_of` reads both.
pub struct Rows<C: Cost> {
    blocks: Blocks,
    words: Words<C>,
}

impl<C: Cost> Drop for Rows<C> {
    fn drop(self) {
        let Rows {
            blocks: _blocks,
            words: _words,
        } = self;
    }
}

impl<C: Cost> Model for Rows<C> {
    ghost use Rattle.std.specs.Prelude.{List, Option, length};
    ghost use Rattle.row_labels.specs.declared.blocks.Span.{Span};
    ghost use Rattle.row_labels.specs.Blocks.{AreApart};

    ghost Value = { List (List Span) × List (Option C) };

    ghost view = { λ r. (r.blocks, r.words) };

    ghost invariant = { λ r. AreApart r.blocks (length r.words) };
}

/// What the offers along each row have cost so far, and the places where the last offers improved that.
pub struct RowLabels<C: Cost> {
    pub rows: Rows<C>,
    pub improved: Vec<usize>,
}

impl<C: Cost> Drop for RowLabels<C> {
    fn drop(self) {
        let RowLabels {
            rows: _rows,
            improved: _improved,
        } = self;
    }
}

// From here on the rank of what is paid isn't added to words: below, the sum with one that is a rank is below 2^63.
const HIGH_RANK: u64 = 4611686018427387904;

// What is offered along the first `count` places of a row: what is paid before it, and what each place costs. The rank of what
// is paid is added to words below `ranks`.
#[derive(Drop)]
struct Offers<'a, C: Cost> {
    paid: C,
    rank: u64,
    ranks: u64,
    costs: &'a CostRow<'a, C>,
    count: usize,
}

impl<C: Cost> RowLabels<C> {
    /// Nothing is kept.
    pub fn new(alloc: Global) -> RowLabels<C>
        ensures { (row : ℕ × ℕ) (j : ℕ) → value_of result.rows row j ≡ None }
    {
        RowLabels {
            rows: Rows {
                blocks: Blocks::new(alloc),
                words: Words::new(alloc),
            },
            improved: Vec::new(alloc),
        }
    }

    /// Takes away what is kept, in time for the rows that were gone along, and keeps all memory.
    pub fn clear(&mut self)
        ensures { (row : ℕ × ℕ) (j : ℕ) → value_of self.new.rows row j ≡ None }
    {
        self.rows.blocks.clear();
        self.rows.words.clear();
    }

    /// Goes along the first `count` places of the row of a name, behind what is paid: where a place has a cost, and what is
    /// paid then is less than the value that is kept there or there is none, this becomes the value, and the place is among
    /// the improved ones. Where memory or the 2^32 places for values run out, it answers the error.
    pub fn lower(
        &mut self,
        name: (u32, u32),
        paid: C,
        costs: &CostRow<'_, C>,
        count: usize,
    ) -> Result<(), AllocError>
        requires fits { (j : ℕ) (s : _) → j < count → slice_get costs.now j ≡ Some (Some s) → C.ops.units (C.ops.plus paid s) (2 ^ 31) }
        ensures { OnOk result (LowersRow C.ops (value_of self.old.rows) (value_of self.new.rows) name paid costs.now count self.new.improved.items) }
    {
        let count = count.min(costs.len());
        let (rank, ranks) = addends(paid);
        let offers = Offers {
            paid,
            rank,
            ranks,
            costs,
            count,
        };
        self.improved.clear();
        self.rows.lower(name, &offers, &mut self.improved)
    }
}

// The rank of what is paid, and below what it is added to words: to none where it has no rank or a high one.
fn addends<C: Cost>(paid: C) -> (u64, u64)
    ensures { AreAdded C.ranked C.RANKS paid result.0 result.1 }
{
    let Some(rank) = paid.rank() else {
        return (0, 0);
    };
    if rank >= HIGH_RANK {
        return (0, 0);
    }
    (rank, C::RANKS)
}

impl<C: Cost> Rows<C> {
    // Goes along the places of the offers in the row of a name.
    fn lower(
        &mut self,
        name: (u32, u32),
        offers: &Offers<C>,
        improved: &mut Vec<usize>,
    ) -> Result<(), AllocError>
        requires fits { (j : ℕ) (s : _) → j < offers.now.count → slice_get offers.now.costs.now j ≡ Some (Some s) → C.ops.units (C.ops.plus offers.now.paid s) (2 ^ 31) }
        requires ranks { AreAdded C.ranked C.RANKS offers.now.paid offers.now.rank offers.now.ranks }
        requires long { offers.now.count ≤ length offers.now.costs.now }
        requires none { improved.old.items ≡ [] }
        ensures { OnOk result (LowersRow C.ops (value_of self.old) (value_of self.new) name offers.now.paid offers.now.costs.now offers.now.count improved.new.items) }
    {
        let first = ensure_block(&mut self.blocks, &mut self.words, name, offers.count)?;
        lower_values(&mut self.words, first, offers, improved)
    }
}

// Sees that the row of a name has a block of at least `count` places, and gives the first. The values of a block that is too
// short are forgotten.
#[inline(always)]
fn ensure_block<C: Cost>(
    blocks: &mut Blocks,
    words: &mut Words<C>,
    name: (u32, u32),
    count: usize,
) -> Result<usize, AllocError>
    requires apart { AreApart blocks.old (length words.old) }
    ensures apart { AreApart blocks.new (length words.new) }
    ensures kept { OnOk result ((row : ℕ × ℕ) (j : ℕ) (d : C) → value_in words.new (span_of blocks.new row) j ≡ Some d → value_in words.old (span_of blocks.old row) j ≡ Some d) }
    ensures there { IfOk result (λ first. (span_of blocks.new name).first ≡ first) }
    ensures room { OnOk result (count ≤ (span_of blocks.new name).count) }
    ensures small { IfOk result (λ first. first + count < 2 ^ 64) }
{
    let span = blocks.span(name);
    if count <= span.count as usize {
        return Ok(span.first as usize);
    }
    append_block(blocks, words, name, count)
}

// Gives the row of a name a block of `count` places behind all others, and gives the first.
fn append_block<C: Cost>(
    blocks: &mut Blocks,
    words: &mut Words<C>,
    name: (u32, u32),
    count: usize,
) -> Result<usize, AllocError>
    requires apart { AreApart blocks.old (length words.old) }
    ensures apart { AreApart blocks.new (length words.new) }
    ensures kept { OnOk result ((row : ℕ × ℕ) (j : ℕ) (d : C) → value_in words.new (span_of blocks.new row) j ≡ Some d → value_in words.old (span_of blocks.old row) j ≡ Some d) }
    ensures there { IfOk result (λ first. (span_of blocks.new name).first ≡ first) }
    ensures room { OnOk result (count ≤ (span_of blocks.new name).count) }
    ensures small { IfOk result (λ first. first + count < 2 ^ 64) }
{
    let Ok(first) = u32::try_from(words.len()) else {
        return Err(AllocError);
    };
    let Ok(places) = u32::try_from(count) else {
        return Err(AllocError);
    };
    words.extend(count)?;
    let span = Span {
        first,
        count: places,
    };
    blocks.put(name, span)?;
    Ok(first as usize)
}

// Goes along the places of the offers in the block that begins at `first`.
fn lower_values<C: Cost>(
    words: &mut Words<C>,
    first: usize,
    offers: &Offers<C>,
    improved: &mut Vec<usize>,
) -> Result<(), AllocError>
    requires fits { (j : ℕ) (s : _) → j < offers.now.count → slice_get offers.now.costs.now j ≡ Some (Some s) → C.ops.units (C.ops.plus offers.now.paid s) (2 ^ 31) }
    requires ranks { AreAdded C.ranked C.RANKS offers.now.paid offers.now.rank offers.now.ranks }
    requires long { offers.now.count ≤ length offers.now.costs.now }
    requires room { first + offers.now.count ≤ length words.old }
    requires small { first + offers.now.count < 2 ^ 64 }
    requires none { improved.old.items ≡ [] }
    ensures lowers { OnOk result (Lowers C.ops first words.old words.new offers.now.paid offers.now.costs.now offers.now.count improved.new.items) }
    ensures long { length words.new ≡ length words.old }
{
    let mut place = pass_over(words, first, offers, 0);
    while place < offers.count {
        offer_place(words, first, offers, place, improved)?;
        place = pass_over(words, first, offers, place + 1);
    }
    Ok(())
}

// Passes over the places from `from` on where words alone tell that the offer improves nothing, and gives the place behind them:
// most are passed over here, and nothing is written meanwhile.
#[inline(never)]
fn pass_over<C: Cost>(words: &Words<C>, first: usize, offers: &Offers<C>, from: usize) -> usize
    requires ranks { AreAdded C.ranked C.RANKS offers.now.paid offers.now.rank offers.now.ranks }
    requires from { from ≤ offers.now.count }
    requires long { offers.now.count ≤ length offers.now.costs.now }
    requires room { first + offers.now.count ≤ length words.now }
    requires small { first + offers.now.count < 2 ^ 64 }
    ensures from { from ≤ result }
    ensures count { result ≤ offers.now.count }
    ensures over { (j : ℕ) → from ≤ j → j < result → IsOver C.ranked words.now (first + j) offers.now.paid offers.now.costs.now j }
{
    let costs = offers.costs.words();
    let values = words.block(first, offers.count);
    let (rank, ranks) = (offers.rank, offers.ranks);
    for place in from..offers.count {
        if !is_over(costs[place], values[place], rank, ranks) {
            return place;
        }
    }
    offers.count
}

// Whether the place has no cost, or the words of what is paid, of its cost and of its value tell that the offer there is no less
// than the value. The word of no cost is the greatest: one more is 0, as for no other word, and the sum saturates, so that no
// value is above it. Which places have no cost is hard to foresee, so no branch asks that.
#[inline(always)]
fn is_over(word: u64, value: u64, rank: u64, ranks: u64) -> bool
    ensures { OnTrue result (IsToldOver word value rank ranks) }
{
    word.wrapping_add(1) <= ranks && value <= rank.saturating_add(word)
}

// Offers a cost along one place, if it has one: by words, where they tell all.
#[inline(always)]
fn offer_place<C: Cost>(
    words: &mut Words<C>,
    first: usize,
    offers: &Offers<C>,
    place: usize,
    improved: &mut Vec<usize>,
) -> Result<(), AllocError>
    requires fits { (j : ℕ) (s : _) → j < offers.now.count → slice_get offers.now.costs.now j ≡ Some (Some s) → C.ops.units (C.ops.plus offers.now.paid s) (2 ^ 31) }
    requires ranks { AreAdded C.ranked C.RANKS offers.now.paid offers.now.rank offers.now.ranks }
    requires place { place < offers.now.count }
    requires long { offers.now.count ≤ length offers.now.costs.now }
    requires room { first + offers.now.count ≤ length words.old }
    requires small { first + offers.now.count < 2 ^ 64 }
    ensures lowers { OnOk result (LowersAt C.ops first words.old words.new offers.now.paid offers.now.costs.now place improved.old.items improved.new.items) }
    ensures long { length words.new ≡ length words.old }
{
    if lower_word(words, first, offers, place) {
        improved.push(place)?;
        return Ok(());
    }
    offer_cost(words, first, offers, place, improved)
}

// Makes the offer at a place the value there, if words tell that it is less or there is no value, and tells whether it did.
#[inline(always)]
fn lower_word<C: Cost>(words: &mut Words<C>, first: usize, offers: &Offers<C>, place: usize) -> bool
    requires ranks { AreAdded C.ranked C.RANKS offers.now.paid offers.now.rank offers.now.ranks }
    requires place { place < offers.now.count }
    requires long { offers.now.count ≤ length offers.now.costs.now }
    requires room { first + offers.now.count ≤ length words.old }
    requires small { first + offers.now.count < 2 ^ 64 }
    ensures yes { OnTrue result ((s : C) × (slice_get offers.now.costs.now place ≡ Some (Some s)) × (words.new ≡ set words.old (first + place) (Some (C.ops.plus offers.now.paid s)))) }
    ensures no { OnFalse result (words.new ≡ words.old) }
    ensures long { length words.new ≡ length words.old }
{
    let word = offers.costs.word(place);
    if word >= offers.ranks {
        return false;
    }
    match C::rank_of_sum(offers.rank, word) {
        Some(rank) => words.lower(first + place, rank),
        None => false,
    }
}

// Offers a cost along one place, if it has one.
#[inline(never)]
fn offer_cost<C: Cost>(
    words: &mut Words<C>,
    first: usize,
    offers: &Offers<C>,
    place: usize,
    improved: &mut Vec<usize>,
) -> Result<(), AllocError>
    requires fits { (j : ℕ) (s : _) → j < offers.now.count → slice_get offers.now.costs.now j ≡ Some (Some s) → C.ops.units (C.ops.plus offers.now.paid s) (2 ^ 31) }
    requires place { place < offers.now.count }
    requires long { offers.now.count ≤ length offers.now.costs.now }
    requires room { first + offers.now.count ≤ length words.old }
    requires small { first + offers.now.count < 2 ^ 64 }
    ensures lowers { OnOk result (LowersAt C.ops first words.old words.new offers.now.paid offers.now.costs.now place improved.old.items improved.new.items) }
    ensures long { length words.new ≡ length words.old }
{
    let Some(cost) = offers.costs.get(place) else {
        return Ok(());
    };
    lower_value(
        words,
        first + place,
        offers.paid.plus(cost),
        place,
        improved,
    )
}

// Makes an offer the value at a place of the words where it is less or there is none; the place of the row is improved then.
#[inline(always)]
fn lower_value<C: Cost>(
    words: &mut Words<C>,
    at: usize,
    offer: C,
    place: usize,
    improved: &mut Vec<usize>,
) -> Result<(), AllocError>
    requires { at < length words.old }
    ensures lowers { OnOk result (IsOffered C.ops words.old words.new at offer place improved.old.items improved.new.items) }
    ensures long { length words.new ≡ length words.old }
{
    if let Some(value) = words.get(at) {
        if !offer.cmp(&value).is_lt() {
            return Ok(());
        }
    }
    words.put(at, offer)?;
    improved.push(place)?;
    Ok(())
}
