//! Snapping coordinates to roads.

ghost use Rattle.std.specs.Prelude.{◌≡◌, ℕ, ◌*◌, ◌<◌, ◌≤◌, IfOk, IfSome, length, MatchOption};
ghost use Rattle.std.specs.List.{AllByRecursion};
ghost use Rattle.geo_integer.specs.Position.{position_of};
ghost use Rattle.snap_index.specs.Candidates.{IsEmptySlot, places_found};
ghost use Rattle.snap_index.specs.Ends.{all_ends};
ghost use Rattle.snap_index.specs.Firsts.{AreFirsts};
ghost use Rattle.snap_index.specs.declared.snapping.Snapped.{Snapped};
ghost use Rattle.snap_index.specs.Snapped.{HasNoPlace, IsSnapped};

use crate::candidates::Candidate;
use crate::filters::Filter;
use crate::grids::Grid;
use crate::keeping::is_in_reach;
use crate::searching::search;
use edge_graph::Network;
use geo_integer::distance;
use metric_make::BaseMetric;
use road_base::{Place, Point};
use std::alloc::{AllocError, Global};

/// A place that was found for a coordinate.
#[derive(Clone, Copy)]
pub struct Snapped {
    pub place: Place,
    /// where the place lies
    pub point: Point,
    /// how many decimetres it lies from the coordinate
    pub distance: u64,
}

/// The place that stands for a coordinate: the nearest one, on a segment that has an open direction and
/// passes the filter. None where no segment does. The grid is that of the network.
pub fn snap(
    network: &Network,
    grid: &Grid,
    base: &BaseMetric,
    from: Point,
    filter: Filter,
) -> Option<Place>
    requires grid { grid.now ≡ all_ends network.now.segments }
    requires weights { 2 * length network.now.segments ≤ length base.now.weights.vertex }
    ensures value { MatchOption result (HasNoPlace network.now.segments base.now.weights filter (position_of from)) (IsSnapped network.now.segments base.now.weights filter (position_of from)) }
    ensures placed { IfSome result (λ place. (place.segment < length network.now.segments) × (place.at ≤ 1024)) }
{
    let mut slots = [None];
    search(grid, base, from, filter.heading, &mut slots);
    let Some(best) = slots[0] else {
        return None;
    };
    // what comes first is the least far away, so that nothing else is in reach where it isn't
    if !is_in_reach(filter.radius, from, best.spot) {
        return None;
    }
    Some(best.place)
}

/// The nearest places of a coordinate, nearest first: on each segment that has an open direction and passes the
/// filter the nearest one, of two equally near ones the one on the segment of the lower number first, but no more
/// than `number`. The grid is that of the network. It answers an error only where memory runs out.
pub fn nearest(
    alloc: Global,
    network: &Network,
    grid: &Grid,
    base: &BaseMetric,
    from: Point,
    number: u32,
    filter: Filter,
) -> Result<Vec<Snapped>, AllocError>
    requires grid { grid.now ≡ all_ends network.now.segments }
    requires weights { 2 * length network.now.segments ≤ length base.now.weights.vertex }
    ensures firsts { IfOk result (λ found. AreFirsts network.now.segments base.now.weights filter (position_of from) number found.items) }
    ensures placed { IfOk result (λ found. AllByRecursion (λ (one : Snapped). (one.place.segment < length network.now.segments) × (one.place.at ≤ 1024)) found.items) }
{
    let mut slots = empty_slots(alloc, number)?;
    search(grid, base, from, filter.heading, &mut slots);
    found(alloc, from, filter.radius, &slots)
}

// So many slots, none of which is filled.
fn empty_slots(alloc: Global, number: u32) -> Result<Vec<Option<Candidate>>, AllocError>
    ensures count { IfOk result (λ slots. length slots.items ≡ number) }
    ensures empty { IfOk result (λ slots. AllByRecursion IsEmptySlot slots.items) }
{
    let mut slots = Vec::with_capacity(alloc, number as usize)?;
    for _ in 0..number {
        slots.push(None)?;
    }
    Ok(slots)
}

// The places of the slots, up to the first that isn't filled or lies out of reach.
fn found(
    alloc: Global,
    from: Point,
    radius: Option<u64>,
    slots: &[Option<Candidate>],
) -> Result<Vec<Snapped>, AllocError>
    ensures { IfOk result (λ found. found.items ≡ places_found radius (position_of from) slots.now) }
{
    let mut found = Vec::new(alloc);
    for i in 0..slots.len() {
        let Some(candidate) = slots[i] else {
            return Ok(found);
        };
        if !is_in_reach(radius, from, candidate.spot) {
            return Ok(found);
        }
        found.push(Snapped {
            place: candidate.place,
            point: candidate.spot,
            distance: distance(from, candidate.spot),
        })?;
    }
    Ok(found)
}
