//! The vertices that a search comes to, under numbers of their own and with their hops side by side.

ghost use Rattle.std.specs.Prelude.{◌≡◌, ℕ, ◌+◌, ◌<◌, ◌≤◌, ◌^◌, length, Some, IfSome, IfOk, OnOk};
ghost use Rattle.std.specs.Bool.{OnTrue};
ghost use Rattle.std.specs.List.{Contains, slice_get};
ghost use Rattle.cell_customize.specs.Numbers.{AreBelow, Grows, Keeps};
ghost use Rattle.cell_customize.specs.Local.{AreHeads, AreHops, IsLocal, IsRowAt, IsSearched};

use crate::numbering::Numbering;
use search_graph::Cost;
use std::alloc::{AllocError, Global};
use step_search::{Hop, Steps};

/// Where the hops and the row of a vertex stand.
#[derive(Clone, Copy, Drop)]
pub struct Span {
    pub arcs: u32,
    pub arcs_end: u32,
    pub row: u32,
    pub row_end: u32,
}

/// Some vertices of a space, under numbers of their own: what a search comes to that begins at one of them.
///
/// Neighbours in the space are neighbours here too, so a search over it reads memory that lies together. It costs 20
/// bytes a vertex, the size of a `Hop` an arc, and four bytes a place of a row, where vertices with the same heads share
/// them.
pub struct Local<C: Cost> {
    pub numbers: Numbering,
    pub spans: Vec<Span>,
    pub hops: Vec<Hop<C>>,
    pub heads: Vec<u32>,
    // where in `heads` rows begin
    rows: Vec<u32>,
}

impl<C: Cost> Drop for Local<C> {
    fn drop(self) {
        let Local {
            numbers: _numbers,
            spans: _spans,
            hops: _hops,
            heads: _heads,
            rows: _rows,
        } = self;
    }
}

impl<C: Cost> Local<C> {
    /// No vertices.
    pub fn new(alloc: Global) -> Local<C> {
        Local {
            numbers: Numbering::new(alloc),
            spans: Vec::new(alloc),
            hops: Vec::new(alloc),
            heads: Vec::new(alloc),
            rows: Vec::new(alloc),
        }
    }

    /// Takes these vertices and all to which hops lead from them, and what stood in it before away.
    ///
    /// It may be called after any error.
    pub fn fill<T: Steps<C>>(&mut self, steps: &T, from: &[u32]) -> Result<(), AllocError>
        requires ready { T.ready steps.now }
        requires searched { IsSearched C.ops (T.space steps.now) }
        requires from { AreBelow (T.space steps.now).vertices from.now }
        ensures whole { OnOk result (IsLocal (T.space steps.now) self.new.numbers self.new.spans.items self.new.hops.items self.new.heads.items (length self.new.numbers)) }
        ensures named { OnOk result ((v : ℕ) → Contains from.now v → Contains self.new.numbers v) }
    {
        self.numbers.clear();
        self.spans.clear();
        self.hops.clear();
        self.heads.clear();
        self.rows.clear();
        add_all(&mut self.numbers, from)?;
        self.go_on(steps)
    }

    // Goes on until each vertex that has a number has its hops and its row.
    fn go_on<T: Steps<C>>(&mut self, steps: &T) -> Result<(), AllocError>
        requires ready { T.ready steps.now }
        requires searched { IsSearched C.ops (T.space steps.now) }
        requires local { IsLocal (T.space steps.now) self.old.numbers self.old.spans.items self.old.hops.items self.old.heads.items 0 }
        ensures whole { OnOk result (IsLocal (T.space steps.now) self.new.numbers self.new.spans.items self.new.hops.items self.new.heads.items (length self.new.numbers)) }
        ensures keeps { OnOk result (Keeps self.old.numbers self.new.numbers) }
    {
        for place in 0..u32::MAX {
            if place as usize >= self.numbers.len() {
                return Ok(());
            }
            self.take(steps, place)?;
        }
        let _count = self.numbers.len();
        Ok(())
    }

    // Takes the hops and the row of the vertex at `place`.
    fn take<T: Steps<C>>(&mut self, steps: &T, place: u32) -> Result<(), AllocError>
        requires ready { T.ready steps.now }
        requires searched { IsSearched C.ops (T.space steps.now) }
        requires place { place < length self.old.numbers }
        requires local { IsLocal (T.space steps.now) self.old.numbers self.old.spans.items self.old.hops.items self.old.heads.items place }
        ensures local { OnOk result (IsLocal (T.space steps.now) self.new.numbers self.new.spans.items self.new.hops.items self.new.heads.items (place + 1)) }
        ensures keeps { OnOk result (Keeps self.old.numbers self.new.numbers) }
    {
        let u = self.numbers.name(place);
        let arcs = short(self.hops.len())?;
        push_arcs(steps, u, &mut self.numbers, &mut self.hops)?;
        let arcs_end = short(self.hops.len())?;
        let (row, row_end) = row_of(steps, u, &mut self.numbers, &mut self.heads, &mut self.rows)?;
        self.spans.push(Span {
            arcs,
            arcs_end,
            row,
            row_end,
        })?;
        Ok(())
    }
}

// A place in four bytes. One past 2^32 - 1 is answered by the error, as where memory runs out.
fn short(place: usize) -> Result<u32, AllocError>
    ensures { IfOk result (λ n. n ≡ place) }
{
    if place > u32::MAX as usize {
        return Err(AllocError);
    }
    Ok(place as u32)
}

// Gives numbers to all of the vertices.
fn add_all(numbers: &mut Numbering, vertices: &[u32]) -> Result<(), AllocError>
    ensures named { OnOk result ((v : ℕ) → Contains vertices.now v → Contains numbers.new v) }
    ensures grows { OnOk result ((n : ℕ) → AreBelow n vertices.now → Grows n numbers.old numbers.new) }
{
    for v in vertices {
        numbers.add(*v)?;
    }
    Ok(())
}

// Puts a hop along an arc of u at the end, where that way is open.
fn push_arc<C: Cost, T: Steps<C>>(
    steps: &T,
    u: u32,
    arc: u32,
    numbers: &mut Numbering,
    hops: &mut Vec<Hop<C>>,
) -> Result<(), AllocError>
    requires ready { T.ready steps.now }
    requires searched { IsSearched C.ops (T.space steps.now) }
    requires vertex { u < (T.space steps.now).vertices }
    requires named { (T.space steps.now).Name u arc }
    ensures grows { OnOk result (Grows (T.space steps.now).vertices numbers.old numbers.new) }
    ensures keeps { OnOk result (Keeps hops.old.items hops.new.items) }
    ensures hops { OnOk result (AreHops (T.space steps.now) u numbers.new hops.new.items (length hops.old.items) (λ g. g ≡ arc)) }
{
    match steps.by_arc(u, arc) {
        None => Ok(()),
        Some(hop) => {
            let head = numbers.add(hop.head)?;
            let cost = hop.cost;
            hops.push(Hop { head, cost })?;
            Ok(())
        }
    }
}

// Puts a hop along each arc of u that is open at the end.
fn push_arcs<C: Cost, T: Steps<C>>(
    steps: &T,
    u: u32,
    numbers: &mut Numbering,
    hops: &mut Vec<Hop<C>>,
) -> Result<(), AllocError>
    requires ready { T.ready steps.now }
    requires searched { IsSearched C.ops (T.space steps.now) }
    requires vertex { u < (T.space steps.now).vertices }
    ensures grows { OnOk result (Grows (T.space steps.now).vertices numbers.old numbers.new) }
    ensures keeps { OnOk result (Keeps hops.old.items hops.new.items) }
    ensures hops { OnOk result (AreHops (T.space steps.now) u numbers.new hops.new.items (length hops.old.items) (λ g. Unit {0})) }
{
    let arcs = steps.arcs(u);
    for place in 0..arcs.len() {
        push_arc(steps, u, arcs.get(place), numbers, hops)?;
    }
    Ok(())
}

// Whether the number of a vertex stands at a place.
fn has_head(numbers: &Numbering, heads: &[u32], place: usize, v: u32) -> bool
    ensures { OnTrue result ((b : ℕ) × (slice_get heads.now place ≡ Some b) × (slice_get numbers.now b ≡ Some v)) }
{
    match heads.get(place) {
        None => false,
        Some(head) => match numbers.number(v) {
            None => false,
            Some(a) => a == *head,
        },
    }
}

// Whether there is room for so many from a place on.
fn fits(from: u32, count: usize, len: usize) -> bool
    ensures { OnTrue result (from + count ≤ len) }
{
    count <= len && from as usize <= len - count
}

// Whether the numbers of these vertices stand at `from`.
fn has_heads(numbers: &Numbering, heads: &[u32], from: u32, vertices: &[u32]) -> bool
    ensures { OnTrue result (AreHeads numbers.now heads.now from vertices.now (length vertices.now)) }
{
    for place in 0..vertices.len() {
        if !has_head(numbers, heads, from as usize + place, vertices[place]) {
            return false;
        }
    }
    fits(from, vertices.len(), heads.len())
}

// Where the numbers of these vertices stand, if they stand at one of these places.
fn find_heads(numbers: &Numbering, heads: &[u32], rows: &[u32], vertices: &[u32]) -> Option<u32>
    ensures { IfSome result (λ from. AreHeads numbers.now heads.now from vertices.now (length vertices.now)) }
{
    for from in rows {
        if has_heads(numbers, heads, *from, vertices) {
            return Some(*from);
        }
    }
    None
}

// Puts the numbers of these vertices at the end.
fn push_heads(
    numbers: &mut Numbering,
    heads: &mut Vec<u32>,
    vertices: &[u32],
) -> Result<(), AllocError>
    ensures grows { OnOk result ((n : ℕ) → AreBelow n vertices.now → Grows n numbers.old numbers.new) }
    ensures keeps { OnOk result (Keeps heads.old.items heads.new.items) }
    ensures heads { OnOk result (AreHeads numbers.new heads.new.items (length heads.old.items) vertices.now (length vertices.now)) }
{
    for v in vertices {
        let head = numbers.add(*v)?;
        heads.push(head)?;
    }
    Ok(())
}

// Where the heads of these vertices stand, at the end if they stood nowhere.
fn heads_at(
    numbers: &mut Numbering,
    heads: &mut Vec<u32>,
    rows: &mut Vec<u32>,
    vertices: &[u32],
) -> Result<u32, AllocError>
    ensures grows { OnOk result ((n : ℕ) → AreBelow n vertices.now → Grows n numbers.old numbers.new) }
    ensures keeps { OnOk result (Keeps heads.old.items heads.new.items) }
    ensures heads { IfOk result (λ from. AreHeads numbers.new heads.new.items from vertices.now (length vertices.now)) }
{
    if let Some(from) = find_heads(numbers, heads.as_slice(), rows.as_slice(), vertices) {
        return Ok(from);
    }
    let from = short(heads.len())?;
    push_heads(numbers, heads, vertices)?;
    rows.push(from)?;
    Ok(from)
}

// Where the row of u begins and ends among the heads; a row without costs has no places.
fn row_of<C: Cost, T: Steps<C>>(
    steps: &T,
    u: u32,
    numbers: &mut Numbering,
    heads: &mut Vec<u32>,
    rows: &mut Vec<u32>,
) -> Result<(u32, u32), AllocError>
    requires ready { T.ready steps.now }
    requires searched { IsSearched C.ops (T.space steps.now) }
    requires vertex { u < (T.space steps.now).vertices }
    ensures grows { OnOk result (Grows (T.space steps.now).vertices numbers.old numbers.new) }
    ensures keeps { OnOk result (Keeps heads.old.items heads.new.items) }
    ensures row { IfOk result (λ r. IsRowAt (T.space steps.now) u numbers.new heads.new.items r.0 r.1) }
{
    let costs = steps.costs(u);
    if costs.is_empty() {
        return Ok((0, 0));
    }
    let vertices = steps.heads(u);
    let from = heads_at(numbers, heads, rows, vertices)?;
    let end = short(from as usize + vertices.len())?;
    Ok((from, end))
}
