//! Where a trip stops.

ghost use Rattle.std.specs.Prelude.{◌≡◌, ℕ, ◌<◌, IfOk, length};
ghost use Rattle.std.specs.List.{Contains};
ghost use Rattle.trip_query.specs.Trips.{stops};
ghost use Rattle.road_trips.specs.Trips.{places_at, stops_at};

use road_base::Place;
use std::alloc::{AllocError, Global};

// The numbers of the places at which a trip in this order stops.
fn numbers_of(alloc: Global, order: &[u32], roundtrip: bool) -> Result<Vec<u32>, AllocError>
    ensures { IfOk result (λ numbers. numbers.items ≡ stops roundtrip order.now) }
{
    let mut numbers = Vec::with_capacity(alloc, order.len() + 1)?;
    numbers.extend_from_slice(order)?;
    if roundtrip {
        if let Some(first) = order.first() {
            numbers.push(*first)?;
        }
    }
    Ok(numbers)
}

// The places of these numbers.
fn places_at(alloc: Global, numbers: &[u32], places: &[Place]) -> Result<Vec<Place>, AllocError>
    requires { (k : ℕ) → Contains numbers.now k → k < length places.now }
    ensures { IfOk result (λ found. found.items ≡ places_at places.now numbers.now) }
{
    let mut found = Vec::with_capacity(alloc, numbers.len())?;
    for number in numbers {
        found.push(places[*number as usize])?;
    }
    Ok(found)
}

/// The places at which a trip through them in this order stops.
pub(crate) fn stops_at(
    alloc: Global,
    places: &[Place],
    roundtrip: bool,
    order: &[u32],
) -> Result<Vec<Place>, AllocError>
    requires { (k : ℕ) → Contains order.now k → k < length places.now }
    ensures { IfOk result (λ found. found.items ≡ stops_at places.now roundtrip order.now) }
{
    let numbers = numbers_of(alloc, order, roundtrip)?;
    places_at(alloc, &numbers, places)
}
