//! What trips pay.

ghost use Rattle.std.specs.Prelude.{◌≡◌, ◌<◌, length, IfOk};
ghost use Rattle.trip_query.specs.Tails.{AreWide, IsListOf, begin_at, end_at};
ghost use Rattle.trip_query.specs.Trips.{lists_of};

use crate::rules::Rule;
use search_graph::Cost;
use std::alloc::{AllocError, Global};

/// What trips pay. In what is paid to begin and to end stands all that a rule asks: nothing, a way back, or `None` where
/// the rule forbids it.
#[derive(Drop)]
pub(crate) struct Paid<'a, C> {
    /// what the leg from each place to each costs, a row for each place
    pub rows: &'a [Vec<Option<C>>],
    /// what is paid to begin at each place
    pub begins: Vec<Option<C>>,
    /// what is paid to end at each place
    pub ends: Vec<Option<C>>,
}

// What is paid to begin at a place.
fn begin_at<C: Cost>(rows: &[Vec<Option<C>>], rule: Rule, place: usize) -> Option<C>
    requires square { AreWide (length rows.now) rows.now }
    requires place { place < length rows.now }
    ensures { result ≡ begin_at C.ops (lists_of rows.now) rule place }
{
    if rule.begins_at_first() {
        if place == 0 { Some(C::ZERO) } else { None }
    } else if rule.roundtrip {
        rows[rows.len() - 1][place]
    } else {
        Some(C::ZERO)
    }
}

// What is paid to end at a place.
fn end_at<C: Cost>(rows: &[Vec<Option<C>>], rule: Rule, place: usize) -> Option<C>
    requires square { AreWide (length rows.now) rows.now }
    requires place { place < length rows.now }
    ensures { result ≡ end_at C.ops (lists_of rows.now) rule place }
{
    if rule.destination.is_last() && place != rows.len() - 1 {
        None
    } else if rule.roundtrip && rule.begins_at_first() {
        rows[place][0]
    } else {
        Some(C::ZERO)
    }
}

/// What trips by this rule pay.
pub(crate) fn paid_by<C: Cost>(
    alloc: Global,
    rows: &[Vec<Option<C>>],
    rule: Rule,
) -> Result<Paid<'_, C>, AllocError>
    requires square { AreWide (length rows.now) rows.now }
    ensures rows { IfOk result (λ paid. paid.rows.now ≡ rows.now) }
    ensures begins { IfOk result (λ paid. IsListOf (begin_at C.ops (lists_of rows.now) rule) (length rows.now) paid.begins.items) }
    ensures ends { IfOk result (λ paid. IsListOf (end_at C.ops (lists_of rows.now) rule) (length rows.now) paid.ends.items) }
{
    let mut begins = Vec::with_capacity(alloc, rows.len())?;
    let mut ends = Vec::with_capacity(alloc, rows.len())?;
    for place in 0..rows.len() {
        begins.push(begin_at(rows, rule, place))?;
        ends.push(end_at(rows, rule, place))?;
    }
    Ok(Paid { rows, begins, ends })
}
