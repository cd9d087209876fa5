//! The best trip.

ghost use Rattle.std.specs.Prelude.{◌≡◌, ◌-◌, ◌^◌, ◌<◌, ◌≤◌, length, All, Some, IfOk, IfSome};
ghost use Rattle.std.specs.Option.{ForSome};
ghost use Rattle.trip_query.specs.Orders.{IsFirstOf};
ghost use Rattle.trip_query.specs.Tails.{AreReady, AreRowsOfTails, Goes, IsOrderFrom, through};
ghost use Rattle.trip_query.specs.Trips.{IsBestTrip, leg, lists_of};

use crate::paid::{Paid, paid_by};
use crate::rules::Rule;
use crate::steps::first_step;
use crate::tails::tails_of;
use crate::trips::Trip;
use search_graph::{Cost, Numbers};
use std::alloc::{AllocError, Global};

// The first of the cheapest orders in which to go on from a place through all of the set, with the place in front.
fn order_from<C: Cost>(
    alloc: Global,
    paid: &Paid<'_, C>,
    tails: &[Vec<Option<C>>],
    all: usize,
    place: u32,
) -> Result<Vec<u32>, AllocError>
    requires ready { AreReady C.ops paid.now.rows.now paid.now.begins.items paid.now.ends.items }
    requires tails { AreRowsOfTails C.ops paid.now.rows.now paid.now.ends.items (2 ^ length paid.now.rows.now) tails.now }
    requires set { all < 2 ^ length paid.now.rows.now }
    requires place { place < length paid.now.rows.now }
    requires tail { (c : C) × (leg (lists_of tails.now) all place ≡ Some c) }
    ensures { IfOk result (λ order. (c : C) × (leg (lists_of tails.now) all place ≡ Some c) × IsOrderFrom C.ops (lists_of paid.now.rows.now) paid.now.ends.items all place c order.items) }
{
    let mut order = Vec::with_capacity(alloc, paid.rows.len())?;
    order.push(place)?;
    let mut set = all;
    let mut at = place as usize;
    while let Some(step) = first_step(tails, set, paid.rows[at].as_slice()) {
        order.push(step.place)?;
        at = step.place as usize;
        set -= 1 << at;
    }
    Ok(order)
}

// The first of the cheapest orders of all places, and what is paid along it.
fn first_order<C: Cost>(alloc: Global, paid: &Paid<'_, C>) -> Result<Option<Trip<C>>, AllocError>
    requires ready { AreReady C.ops paid.now.rows.now paid.now.begins.items paid.now.ends.items }
    ensures { IfOk result (λ answer. IsFirstOf C.ops (Goes (2 ^ length paid.now.rows.now - 1)) (through C.ops (lists_of paid.now.rows.now) paid.now.ends.items paid.now.begins.items) answer) }
{
    let tails = tails_of(alloc, paid)?;
    let all = tails.len() - 1;
    match first_step(&tails, all, paid.begins.as_slice()) {
        None => Ok(None),
        Some(step) => {
            let others = all - (1 << step.place);
            let order = order_from(alloc, paid, &tails, others, step.place)?;
            Ok(Some(Trip {
                order: Numbers::of(order),
                cost: step.cost,
            }))
        }
    }
}

/// The best trip through all places. `rows` has a row for each place, and in it what the leg from there to each place
/// costs, or `None` where there is no leg; what stands on the diagonal plays no part.
///
/// Of all orders that the rule admits the trip has one that costs least, and of several the first in lexicographic
/// order. It is `None` exactly where each of these orders has a leg that is `None`.
///
/// It answers the error where memory runs out.
pub fn best<C: Cost>(
    alloc: Global,
    rows: &[Vec<Option<C>>],
    rule: Rule,
) -> Result<Option<Trip<C>>, AllocError>
    requires some { 2 ≤ length rows.now }
    requires few { length rows.now ≤ 9 }
    requires square { All (λ row. length row.items ≡ length rows.now) rows.now }
    requires units { All (λ row. All (λ leg. ForSome leg (λ cost. C.ops.units cost (2 ^ 27))) row.items) rows.now }
    ensures best { IfOk result (IsBestTrip C.ops (lists_of rows.now) rule) }
    ensures size { IfOk result (λ answer. IfSome answer (λ trip. length trip.order ≡ length rows.now)) }
{
    let paid = paid_by(alloc, rows, rule)?;
    first_order(alloc, &paid)
}
