//! Words in place of costs: most costs have a rank, and those that have none stand in a list beside.

ghost use Rattle.std.specs.Prelude.{◌≡◌, ◌+◌, ◌^◌, ◌<◌, ◌++◌, List, length, IfOk};
ghost use Rattle.std.specs.Bool.{OnTrue, OnFalse};
ghost use Rattle.std.specs.declared.cmp.Ordering.TheVariants.{Less};
ghost use Rattle.search_graph.specs.Costs.{NoDearer};
ghost use Rattle.search_labels.specs.Worded.{cost_at};

use search_graph::Cost;
use std::alloc::AllocError;

// From here on a word is the place of a cost among the others; below, it is a rank.
const PLACES: u64 = 9223372036854775808;

// As many others have places: no list of costs that take memory is as long.
const MOST: usize = 9223372036854775807;

/// What a word stands for.
#[inline(always)]
pub fn cost_of<C: Cost>(word: u64, others: &[C]) -> C
    ensures { result ≡ cost_at C.unranked others.now word }
{
    if word < PLACES {
        return C::of_rank(word);
    }
    match others.get((word - PLACES) as usize).copied() {
        Some(cost) => cost,
        None => C::of_rank(word),
    }
}

/// Whether what a word stands for is no more than `cost`.
#[inline(always)]
pub fn is_within<C: Cost>(word: u64, cost: C, others: &[C]) -> bool
    ensures yes { OnTrue result (NoDearer C.ops (cost_at C.unranked others.now word) cost) }
    ensures no { OnFalse result (C.ops.cmp cost (cost_at C.unranked others.now word) ≡ Less) }
{
    is_no_dearer(cost_of(word, others), cost)
}

// Whether `a` is no more than `b`.
#[inline(always)]
fn is_no_dearer<C: Cost>(a: C, b: C) -> bool
    ensures yes { OnTrue result (NoDearer C.ops a b) }
    ensures no { OnFalse result (C.ops.cmp b a ≡ Less) }
{
    !b.cmp(&a).is_lt()
}

/// The word for a cost, which is put among the others where it has no rank.
#[inline(always)]
pub fn word_of<C: Cost>(cost: C, others: &mut Vec<C>) -> Result<u64, AllocError>
    requires few { length others.old.items < 2 ^ 63 }
    ensures value { IfOk result (λ word. cost_at C.unranked others.new.items word ≡ cost) }
    ensures named { IfOk result (λ word. word < 2 ^ 63 + length others.new.items) }
    ensures few { length others.new.items < 2 ^ 63 }
    ensures grown { (more : List C) × (others.new.items ≡ others.old.items ++ more) }
{
    match cost.rank() {
        Some(rank) => Ok(rank),
        None => add_other(cost, others),
    }
}

// Puts a cost among the others, and gives the word for it. Where there is no place left it answers
// the error, as where memory runs out.
fn add_other<C: Cost>(cost: C, others: &mut Vec<C>) -> Result<u64, AllocError>
    requires few { length others.old.items < 2 ^ 63 }
    ensures value { IfOk result (λ word. cost_at C.unranked others.new.items word ≡ cost) }
    ensures named { IfOk result (λ word. word < 2 ^ 63 + length others.new.items) }
    ensures few { length others.new.items < 2 ^ 63 }
    ensures grown { (more : List C) × (others.new.items ≡ others.old.items ++ more) }
{
    let place = others.len();
    if place >= MOST {
        return Err(AllocError);
    }
    others.push(cost)?;
    Ok(PLACES + place as u64)
}
