//! The vertices by the nodes that they leave, whether the vehicle may use them or not.

ghost use Rattle.std.specs.Prelude.{◌≡◌, ◌^◌, ◌<◌, IfOk, IfSome, List, map};
ghost use Rattle.road_turns.specs.DepartureParts.{AreDepartures, IsPlace, departure_of, departures, tail_cmp};
ghost use Rattle.road_turns.specs.Departures.{vertices_from};
ghost use Rattle.road_segments.specs.Vertex.{Vertex, vertices};

use road_segments::Roads;
use std::alloc::{AllocError, Global};
use std::cmp::Ordering;

/// A vertex, and the id of the node that it leaves.
#[derive(Clone, Copy)]
pub struct Departure {
    pub node: i64,
    pub vertex: u32,
}

/// All vertices in the ascending order of the ids of the nodes that they leave, and those that leave one
/// node in the ascending order of their numbers: 4 bytes each.
pub struct Departures {
    pub order: Vec<u32>,
}

impl Drop for Departures {
    fn drop(self) {
        let Departures { order: _order } = self;
    }
}

// More than there are vertices: in one number a node's id stands above its vertex.
const VERTICES: u64 = 134_217_728;

// The first id that doesn't fit above a vertex.
const TOO_GREAT: i64 = 68_719_476_736;

// The vertices in the order of their numbers, each with the node that it leaves.
fn departures_of(alloc: Global, roads: &Roads) -> Result<Vec<Departure>, AllocError>
    ensures { IfOk result (λ all. all.items ≡ departures (vertices roads.now)) }
{
    let count = 2 * roads.len();
    let mut all = Vec::with_capacity(alloc, count as usize)?;
    for vertex in 0..count {
        let node = roads.tail(vertex);
        all.push(Departure { node, vertex })?;
    }
    Ok(all)
}

// How the id of the node that a vertex leaves compares with this one; what is no vertex is behind all nodes.
fn tail_cmp(roads: &Roads, node: i64, v: u32) -> Ordering
    ensures { result ≡ tail_cmp (vertices roads.now) node v }
{
    if v < 2 * roads.len() {
        roads.tail(v).cmp(&node)
    } else {
        Ordering::Greater
    }
}

// A vertex and the node that it leaves as one number: the node's id times 2^27, and the vertex. None where the id is negative
// or doesn't fit above the vertex.
fn number_of(node: i64, vertex: u32) -> Option<u64>
    requires { vertex < 2 ^ 27 }
    ensures { IfSome result (λ number. departure_of number ≡ record { node = node; vertex = vertex }) }
{
    if node < 0 || node >= TOO_GREAT {
        return None;
    }
    Some(node as u64 * VERTICES + u64::from(vertex))
}

// All vertices with the nodes that they leave, each as one number, in the order of the vertices, or None where a node's id
// doesn't fit into that.
fn numbers_of(alloc: Global, roads: &Roads) -> Result<Option<Vec<u64>>, AllocError>
    ensures { IfOk result (λ found. IfSome found (λ all. map departure_of all.items ≡ departures (vertices roads.now))) }
{
    let count = 2 * roads.len();
    let mut all = Vec::with_capacity(alloc, count as usize)?;
    for vertex in 0..count {
        let Some(number) = number_of(roads.tail(vertex), vertex) else {
            return Ok(None);
        };
        all.push(number)?;
    }
    Ok(Some(all))
}

// The vertices of these numbers in the order of the nodes.
fn by_numbers(alloc: Global, numbers: Vec<u64>) -> Result<Vec<u32>, AllocError>
    ensures { IfOk result (λ order. (vs : List Vertex) → map departure_of numbers.items ≡ departures vs → AreDepartures vs order.items) }
{
    let mut numbers = numbers;
    numbers.sort_by_key(|number| (*number / VERTICES) as i64)?;
    let mut order = Vec::with_capacity(alloc, numbers.len())?;
    for i in 0..numbers.len() {
        order.push((numbers[i] % VERTICES) as u32)?;
    }
    Ok(order)
}

// All vertices in the order of the ids of their nodes, whatever these are.
fn by_ids(alloc: Global, roads: &Roads) -> Result<Vec<u32>, AllocError>
    ensures { IfOk result (λ order. AreDepartures (vertices roads.now) order.items) }
{
    let mut all = departures_of(alloc, roads)?;
    all.sort_by_key(|departure| departure.node)?;
    let mut order = Vec::with_capacity(alloc, all.len())?;
    for i in 0..all.len() {
        let departure = all[i];
        order.push(departure.vertex)?;
    }
    Ok(order)
}

impl Departures {
    /// The vertices of these roads. Putting them in order takes time by N log N, a quarter of it where all ids of nodes are at
    /// least 0 and below 2^36, as those of OpenStreetMap are.
    pub fn of(alloc: Global, roads: &Roads) -> Result<Departures, AllocError>
        ensures { IfOk result (λ d. AreDepartures (vertices roads.now) d.order.items) }
    {
        let order = match numbers_of(alloc, roads)? {
            Some(numbers) => by_numbers(alloc, numbers)?,
            None => by_ids(alloc, roads)?,
        };
        Ok(Departures { order })
    }

    // Where the vertices that leave a node begin and end among all, found by halves.
    fn place(&self, roads: &Roads, node: i64) -> (usize, usize)
        requires { AreDepartures (vertices roads.now) self.now.order.items }
        ensures { IsPlace (vertices roads.now) self.now.order.items node result }
    {
        let first = self
            .order
            .partition_point(|v| tail_cmp(roads, node, *v).is_lt());
        let end = self
            .order
            .partition_point(|v| tail_cmp(roads, node, *v).is_le());
        (first, end)
    }

    /// The vertices that leave a node.
    pub fn leaving(&self, roads: &Roads, node: i64) -> &[u32]
        requires { AreDepartures (vertices roads.now) self.now.order.items }
        ensures { result.now ≡ vertices_from (vertices roads.now) node }
    {
        let (first, end) = self.place(roads, node);
        &self.order[first..end]
    }
}
