//! The numbers of a text. One that is none is told as want of memory: it too ends the test that draws it.

ghost use Rattle.std.specs.Prelude.{IfOk};
ghost use Rattle.std.specs.Option.{ForSome};
ghost use Rattle.search_graph.specs.RoadCosts.{road_cost_ops};

use search_graph::WeightDurLen;
use std::alloc::{AllocError, Global};

// The whole number that a text is.
fn number(text: Option<&str>) -> Result<u64, AllocError> {
    match text.map(|text| text.parse::<u64>()) {
        Some(Ok(number)) => Ok(number),
        _ => Err(AllocError),
    }
}

/// The vertex that a text names.
pub fn vertex(text: Option<&str>) -> Result<u32, AllocError> {
    match text.map(|text| text.parse::<u32>()) {
        Some(Ok(number)) => Ok(number),
        _ => Err(AllocError),
    }
}

// The coordinate that a text is.
fn coordinate(text: Option<&str>) -> Result<i32, AllocError> {
    match text.map(|text| text.parse::<i32>()) {
        Some(Ok(number)) => Ok(number),
        _ => Err(AllocError),
    }
}

// The arc `tail-head`.
fn arc(entry: &str) -> Result<(u32, u32), AllocError> {
    let mut parts = entry.split('-');
    Ok((vertex(parts.next())?, vertex(parts.next())?))
}

/// The arcs of a list, each as `tail-head`.
pub fn arcs(alloc: Global, list: &str) -> Result<Vec<(u32, u32)>, AllocError> {
    let mut arcs = Vec::new(alloc);
    for entry in list.split(' ') {
        arcs.push(arc(entry)?)?;
    }
    Ok(arcs)
}

// The place `longitude,latitude`.
fn place(entry: &str) -> Result<(i32, i32), AllocError> {
    let mut parts = entry.split(',');
    Ok((coordinate(parts.next())?, coordinate(parts.next())?))
}

/// The places of a list, each as `longitude,latitude`.
pub fn places(alloc: Global, list: &str) -> Result<Vec<(i32, i32)>, AllocError> {
    let mut places = Vec::new(alloc);
    for entry in list.split(' ') {
        places.push(place(entry)?)?;
    }
    Ok(places)
}

/// The cost `weight/duration/length`, or `duration/length` at the weight of the duration.
pub fn parts_of(text: &str) -> Result<WeightDurLen, AllocError> {
    let mut parts = text.split('/');
    let first = number(parts.next())?;
    let second = number(parts.next())?;
    match parts.next() {
        None => Ok(WeightDurLen {
            weight: first,
            duration: first,
            length: second,
        }),
        Some(third) => Ok(WeightDurLen {
            weight: first,
            duration: second,
            length: number(Some(third))?,
        }),
    }
}

/// The cost that a text tells, None for `-`.
pub fn cost_of(text: &str) -> Result<Option<WeightDurLen>, AllocError>
    ensures { IfOk result (λ cost. ForSome cost (λ x. road_cost_ops.units x 1)) }
{
    if text == "-" {
        return Ok(None);
    }
    let cost = parts_of(text)?;
    if cost.weight > 4294967295 || cost.duration > 4294967295 || cost.length > 4294967295 {
        return Err(AllocError);
    }
    Ok(Some(cost))
}

/// The same where there is one.
pub fn open_cost(text: &str) -> Result<WeightDurLen, AllocError>
    ensures { IfOk result (λ cost. road_cost_ops.units cost 1) }
{
    match cost_of(text)? {
        Some(cost) => Ok(cost),
        None => Err(AllocError),
    }
}
