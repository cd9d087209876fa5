//! The least costs to go on from each place through each set of places.

ghost use Rattle.std.specs.Prelude.{None, slice_index_or, ◌≡◌, ℕ, ◌^◌, ◌<◌, length, IfOk};
ghost use Rattle.trip_query.specs.Tails.{AreReady, AreRowsOfTails, IsTail};
ghost use Rattle.trip_query.specs.Trips.{lists_of};

use crate::paid::Paid;
use crate::steps::first_step;
use search_graph::Cost;
use std::alloc::{AllocError, Global};

// The least that it costs to go on from a place through the places of the set, by those costs for each smaller set.
fn tail_of<C: Cost>(
    paid: &Paid<'_, C>,
    tails: &[Vec<Option<C>>],
    set: usize,
    place: usize,
) -> Option<C>
    requires ready { AreReady C.ops paid.now.rows.now paid.now.begins.items paid.now.ends.items }
    requires set { set < 2 ^ length paid.now.rows.now }
    requires tails { AreRowsOfTails C.ops paid.now.rows.now paid.now.ends.items set tails.now }
    requires place { place < length paid.now.rows.now }
    ensures { IsTail C.ops (lists_of paid.now.rows.now) paid.now.ends.items set place result }
{
    if set == 0 {
        return paid.ends[place];
    }
    let row = paid.rows[place].as_slice();
    match first_step(tails, set, row) {
        Some(step) => Some(step.cost),
        None => None,
    }
}

// The same from each place.
fn tails_of_set<C: Cost>(
    alloc: Global,
    paid: &Paid<'_, C>,
    tails: &[Vec<Option<C>>],
    set: usize,
) -> Result<Vec<Option<C>>, AllocError>
    requires ready { AreReady C.ops paid.now.rows.now paid.now.begins.items paid.now.ends.items }
    requires set { set < 2 ^ length paid.now.rows.now }
    requires tails { AreRowsOfTails C.ops paid.now.rows.now paid.now.ends.items set tails.now }
    ensures size { IfOk result (λ values. length values.items ≡ length paid.now.rows.now) }
    ensures each { IfOk result (λ values. (k : ℕ) → k < length paid.now.rows.now → IsTail C.ops (lists_of paid.now.rows.now) paid.now.ends.items set k (slice_index_or values.items k None)) }
{
    let mut values = Vec::with_capacity(alloc, paid.rows.len())?;
    for place in 0..paid.rows.len() {
        let value = tail_of(paid, tails, set, place);
        values.push(value)?;
    }
    Ok(values)
}

/// For each set of places, from the empty one on, and each place: the least that it costs to go on from the place
/// through those of the set. A set is a number with a bit for each of its places.
pub(crate) fn tails_of<C: Cost>(
    alloc: Global,
    paid: &Paid<'_, C>,
) -> Result<Vec<Vec<Option<C>>>, AllocError>
    requires ready { AreReady C.ops paid.now.rows.now paid.now.begins.items paid.now.ends.items }
    ensures { IfOk result (λ tails. AreRowsOfTails C.ops paid.now.rows.now paid.now.ends.items (2 ^ length paid.now.rows.now) tails.items) }
{
    let sets: usize = 1 << paid.rows.len();
    let mut tails = Vec::with_capacity(alloc, sets)?;
    for set in 0..sets {
        let values = tails_of_set(alloc, paid, &tails, set)?;
        tails.push(values)?;
    }
    Ok(tails)
}
