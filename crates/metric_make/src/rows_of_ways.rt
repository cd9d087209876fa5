//! The rows of a speeds file by the permitted vertices that they are for.

ghost use Rattle.std.specs.Prelude.{◌≡◌, ℤ, ◌+◌, ◌*◌, ◌<◌, ◌≤◌, List, IfOk, OnOk, Some, None, length, true, if◌then◌else◌};
ghost use Rattle.std.specs.HashMap.{get};
ghost use Rattle.std.specs.List.{slice_get};
ghost use Rattle.edge_graph.specs.NetworkView.{vertices_of};
ghost use Rattle.metric_make.specs.LastRows.{pair_eq};
ghost use Rattle.metric_make.specs.RowsOfWays.{AreMarked, ArePaired, AreWaysTold, first_or, in_order, place, place_of};
ghost use Rattle.metric_make.specs.TrafficRows.{is_way, speed_for};
ghost use Rattle.road_segments.specs.Vertex.{Vertex};

use crate::last_rows::{count_of, row_at};
use edge_graph::Network;
use std::alloc::{AllocError, Global};
use std::collections::HashMap;
use traffic_files::SpeedRow;

/// The segments of a network by their two nodes.
#[derive(Drop)]
pub(crate) struct Pairs {
    /// by two nodes, the lesser first, the number of the first segment between them
    pub entries: HashMap<(i64, i64), u32>,
    /// for each segment the first one between its nodes, mostly itself
    pub firsts: Vec<u32>,
}

/// The last rows for the permitted vertices, and how many rows are for none.
#[derive(Drop)]
pub(crate) struct RowsOfWays {
    pub pairs: Pairs,
    /// For each first segment from its lesser node to the greater, and then back: nothing where no permitted vertex goes
    /// so, else the number of the last row for it, from 0, if there is one.
    pub last: Vec<Option<Option<u32>>>,
    pub unmatched: u64,
}

// Two nodes, the lesser first.
fn in_order(tail: i64, head: i64) -> (i64, i64)
    ensures { result ≡ in_order (tail, head) }
{
    if head < tail {
        (head, tail)
    } else {
        (tail, head)
    }
}

// The place of what goes from one node to another, of two for a segment between them.
fn place(segment: u32, tail: i64, head: i64) -> usize
    ensures { result ≡ place segment (tail, head) }
{
    let along = 2 * segment as usize;
    if head < tail { along + 1 } else { along }
}

// The first segment between these nodes, once this one is among those that are between some.
fn first_of(
    entries: &mut HashMap<(i64, i64), u32>,
    nodes: (i64, i64),
    segment: u32,
) -> Result<u32, AllocError>
    ensures first { IfOk result (λ first. first ≡ first_or segment (get pair_eq entries.old nodes)) }
    ensures entries { OnOk result ((q : ℤ × ℤ) → get pair_eq entries.new q ≡ (if pair_eq nodes q then Some (first_or segment (get pair_eq entries.old nodes)) else get pair_eq entries.old q)) }
{
    match entries.insert(nodes, segment)? {
        Some(first) => {
            entries.insert(nodes, first)?;
            Ok(first)
        }
        None => Ok(segment),
    }
}

// The segments of a network by their nodes.
fn pair_up(alloc: Global, network: &Network) -> Result<Pairs, AllocError>
    ensures { IfOk result (ArePaired (vertices_of network.now) (length network.now.segments)) }
{
    let count = network.segments();
    let mut entries = HashMap::with_capacity(alloc, count as usize)?;
    let mut firsts = Vec::with_capacity(alloc, count as usize)?;
    for s in 0..count {
        let nodes = in_order(network.tail(2 * s), network.head(2 * s));
        firsts.push(first_of(&mut entries, nodes, s)?)?;
    }
    Ok(Pairs { entries, firsts })
}

// What is known of each pair of nodes before any row: whether a permitted vertex goes from one to the other.
fn marks(
    alloc: Global,
    network: &Network,
    pairs: &Pairs,
) -> Result<Vec<Option<Option<u32>>>, AllocError>
    requires { ArePaired (vertices_of network.now) (length network.now.segments) pairs.now }
    ensures { IfOk result (λ last. AreMarked (vertices_of network.now) pairs.now last.items) }
{
    let count = network.segments();
    let mut last: Vec<Option<Option<u32>>> = vec![in alloc; None; 2 * count as usize]?;
    for v in 0..2 * count {
        if network.permitted(v) {
            let first = pairs.firsts[v as usize / 2];
            last[place(first, network.tail(v), network.head(v))] = Some(None);
        }
    }
    Ok(last)
}

// The place of what goes from one node to another, if a segment is between them.
fn place_of(pairs: &Pairs, tail: i64, head: i64) -> Option<usize>
    ensures { result ≡ place_of pairs.now (tail, head) }
{
    match pairs.entries.get(&in_order(tail, head)) {
        Some(first) => Some(place(*first, tail, head)),
        None => None,
    }
}

// Puts the row of a number last for its nodes, where a permitted vertex has them.
fn match_row(rows: &[SpeedRow], found: &mut RowsOfWays, number: u32)
    requires number { number < length rows.now }
    requires told { (vs : List Vertex) × AreWaysTold vs rows.now number found.old }
    requires few { found.old.unmatched ≤ number }
    ensures { (vs : List Vertex) → AreWaysTold vs rows.now number found.old → AreWaysTold vs rows.now (number + 1) found.new }
{
    let row = rows[number as usize];
    match place_of(&found.pairs, row.from, row.to) {
        Some(place) if found.last[place].is_some() => found.last[place] = Some(Some(number)),
        _ => found.unmatched += 1,
    }
}

/// The last rows for the permitted vertices of a network, each row looked up once.
pub(crate) fn rows_of_ways(
    alloc: Global,
    network: &Network,
    rows: &[SpeedRow],
) -> Result<RowsOfWays, AllocError>
    ensures { IfOk result (AreWaysTold (vertices_of network.now) rows.now (length rows.now)) }
{
    let count = count_of(rows)?;
    let pairs = pair_up(alloc, network)?;
    let last = marks(alloc, network, &pairs)?;
    let mut found = RowsOfWays {
        pairs,
        last,
        unmatched: 0,
    };
    for i in 0..count {
        match_row(rows, &mut found, i);
    }
    Ok(found)
}

/// The row that decides the speed and the rate of a permitted vertex, which goes from one node to the next.
pub(crate) fn speed_of_way(
    rows: &[SpeedRow],
    found: &RowsOfWays,
    v: u32,
    tail: i64,
    head: i64,
) -> Option<SpeedRow>
    requires { (vs : List Vertex) × (x : Vertex) × (slice_get vs v ≡ Some x) × (x.permitted ≡ true) × (x.tail ≡ tail) × (x.head ≡ head) × AreWaysTold vs rows.now (length rows.now) found.now }
    ensures { result ≡ speed_for rows.now tail head }
{
    let first = found.pairs.firsts[v as usize / 2];
    row_at(rows, found.last[place(first, tail, head)]??)
}
