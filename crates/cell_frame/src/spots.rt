//! What a search over parts asks of each vertex that it settles, found beforehand and side by side.

ghost use Rattle.std.specs.Prelude.{◌≡◌, ◌≢◌, None, ℕ, ◌+◌, ◌-◌, ◌<◌, ◌≤◌, ◌^◌, ◌++◌, ◌∷◌, [], List, length, IfOk, IfSome, OnOk, Some, false};
ghost use Rattle.std.specs.Bool.{OnFalse, OnTrue};
ghost use Rattle.std.specs.List.{slice_get};
ghost use Rattle.std.specs.List.Sorted.{IsStrictlyIncreasing};
ghost use Rattle.cell_partition.specs.Partition.{level_at, number_of};
ghost use Rattle.cell_frame.specs.Borders.{none, tell_by};
ghost use Rattle.cell_frame.specs.Spots.{AreArcs, AreSpots, AreTells, IsCut, IsInner, IsNoEntry, TellsLevel, TellsPlace};
ghost use Rattle.search_graph.specs.Digraph.{IsArc};

use crate::borders::{Border, marks_in};
use crate::crossings::{Crossing, push_crossings};
use cell_partition::Cells;
use search_graph::Graph;
use std::alloc::{AllocError, Global};

// In place of what isn't there.
const NONE: u32 = u32::MAX;

/// What is known of a vertex: its cell of the lowest level, or 0 where there is no level; and where it is told what it has to do
/// with the border of its cells, or none where no arc out of it or into it leads from one cell to another.
#[derive(Clone, Copy, Drop)]
pub struct Spot {
    pub lowest: u32,
    pub border: u32,
}

/// What is told of a vertex at a level: its place among the entries of its cell, or none; and where the arcs out of it that lead
/// to other cells of the level stand, and how many there are.
#[derive(Clone, Copy, Drop)]
pub struct Tell {
    pub place: u32,
    pub first: u32,
    pub count: u32,
}

/// What is known of all vertices. Of one at a border it is told for each level, from the lowest.
///
/// It costs 8 bytes a vertex, 12 for each level for one at a border, and 8 for each level that an arc crosses.
#[derive(Drop)]
pub struct Spots {
    pub spots: Vec<Spot>,
    pub tells: Vec<Tell>,
    pub crossings: Vec<Crossing>,
}

/// A graph, its cells and their entries.
#[derive(Drop)]
pub struct Cut<'a> {
    pub graph: &'a Graph,
    pub cells: &'a Cells,
    pub entries: &'a [Border],
}

// The number of the cell of a vertex at the lowest level, if there is one.
fn lowest(cells: &Cells, v: u32) -> u32
    requires { v < cells.now.vertices }
    ensures { 1 ≤ length cells.now.levels → result ≡ number_of (level_at cells.now 1) v }
{
    if cells.levels() == 0 {
        return 0;
    }
    cells.cell(1, v)
}

// The place of a vertex in a list that ascends, or none.
fn place_in(list: &[u32], v: u32) -> u32
    requires ascends { IsStrictlyIncreasing list.now }
    requires few { length list.now < 2 ^ 32 }
    ensures { TellsPlace list.now v result }
{
    match list.binary_search(&v) {
        Ok(place) => place as u32,
        Err(_) => NONE,
    }
}

// Where what stands from one place to another begins, and how much it is. Where that is past the last number, it answers the
// error, as where memory runs out.
fn span(from: usize, to: usize) -> Result<(u32, u32), AllocError>
    requires { from ≤ to }
    ensures first { IfOk result (λ s. s.0 ≡ from) }
    ensures count { IfOk result (λ s. from + s.1 ≡ to) }
    ensures few { IfOk result (λ s. s.0 + s.1 ≤ 2 ^ 32) }
{
    if u32::try_from(to).is_err() {
        return Err(AllocError);
    }
    Ok((from as u32, (to - from) as u32))
}

// Puts what is told of a vertex at one level behind all others.
fn push_tell(known: &mut Spots, cut: &Cut, v: u32, below: u32) -> Result<(), AllocError>
    requires cut { IsCut cut.now.graph.now cut.now.cells.now cut.now.entries.now }
    requires vertex { v < cut.now.graph.now.vertices }
    requires level { below < length cut.now.cells.now.levels }
    requires small { below + 1 < 2 ^ 32 }
    ensures spots { OnOk result (known.new.spots.items ≡ known.old.spots.items) }
    ensures crossings { OnOk result ((more : List Crossing) × (known.new.crossings.items ≡ known.old.crossings.items ++ more) × AreArcs cut.now.graph.now more) }
    ensures tells { OnOk result ((tell : Tell) × (known.new.tells.items ≡ known.old.tells.items ++ tell ∷ []) × TellsLevel cut.now.graph.now cut.now.cells.now cut.now.entries.now known.new.crossings.items v (below + 1) tell) }
{
    let list = cut.entries[below as usize].list(cut.cells.cell(below + 1, v));
    let place = place_in(list, v);
    let from = known.crossings.len();
    push_crossings(&mut known.crossings, cut.graph, cut.cells, below + 1, v)?;
    let (first, count) = span(from, known.crossings.len())?;
    known.tells.push(Tell {
        place,
        first,
        count,
    })?;
    Ok(())
}

// Puts what is told of a vertex behind all others.
fn push_tells(known: &mut Spots, cut: &Cut, v: u32) -> Result<(), AllocError>
    requires cut { IsCut cut.now.graph.now cut.now.cells.now cut.now.entries.now }
    requires vertex { v < cut.now.graph.now.vertices }
    ensures spots { OnOk result (known.new.spots.items ≡ known.old.spots.items) }
    ensures crossings { OnOk result ((more : List Crossing) × (known.new.crossings.items ≡ known.old.crossings.items ++ more) × AreArcs cut.now.graph.now more) }
    ensures tells { OnOk result ((more : List Tell) × (known.new.tells.items ≡ known.old.tells.items ++ more) × AreTells cut.now.graph.now cut.now.cells.now cut.now.entries.now known.new.crossings.items v (length cut.now.cells.now.levels) more) }
{
    for below in 0..cut.cells.levels() {
        push_tell(known, cut, v, below)?;
    }
    Ok(())
}

// Whether an arc out of a vertex leads to another cell of the lowest level.
fn is_left(cut: &Cut, v: u32) -> bool
    requires cut { IsCut cut.now.graph.now cut.now.cells.now cut.now.entries.now }
    requires vertex { v < cut.now.graph.now.vertices }
    requires some { 1 ≤ length cut.now.cells.now.levels }
    ensures { OnFalse result ((arc w : ℕ) → IsArc cut.now.graph.now arc v w → number_of (level_at cut.now.cells.now 1) v ≡ number_of (level_at cut.now.cells.now 1) w) }
{
    let own = cut.cells.cell(1, v);
    let arcs = cut.graph.out(v);
    for place in 0..arcs.len() {
        let (_, head) = cut.graph.arc(arcs.get(place));
        if cut.cells.cell(1, head) != own {
            return true;
        }
    }
    false
}

// Whether a vertex is left and entered at no level. One that isn't marked is no entry.
fn is_inner(cut: &Cut, v: u32, is_marked: bool) -> bool
    requires cut { IsCut cut.now.graph.now cut.now.cells.now cut.now.entries.now }
    requires vertex { v < cut.now.graph.now.vertices }
    requires marked { OnFalse is_marked (IsNoEntry cut.now.cells.now cut.now.entries.now v) }
    ensures { OnTrue result (IsInner cut.now.graph.now cut.now.cells.now cut.now.entries.now v) }
{
    if is_marked {
        return false;
    }
    if cut.cells.levels() == 0 {
        return true;
    }
    !is_left(cut, v)
}

// Where the next vertex is told of, behind as many. Where that would be past the last number, it answers the error, as where memory runs out.
fn next_border(told: usize) -> Result<u32, AllocError>
    ensures { IfOk result (λ border. (border ≡ told) × (border ≢ none)) }
{
    let Ok(border) = u32::try_from(told) else {
        return Err(AllocError);
    };
    if border == NONE {
        return Err(AllocError);
    }
    Ok(border)
}

// Puts what is known of one vertex more.
fn push_spot(known: &mut Spots, cut: &Cut, v: u32, is_marked: bool) -> Result<(), AllocError>
    requires cut { IsCut cut.now.graph.now cut.now.cells.now cut.now.entries.now }
    requires vertex { v < cut.now.graph.now.vertices }
    requires known { AreSpots cut.now.graph.now cut.now.cells.now cut.now.entries.now known.old v }
    requires marked { OnFalse is_marked (IsNoEntry cut.now.cells.now cut.now.entries.now v) }
    ensures { OnOk result (AreSpots cut.now.graph.now cut.now.cells.now cut.now.entries.now known.new (v + 1)) }
{
    let lowest = lowest(cut.cells, v);
    if is_inner(cut, v, is_marked) {
        let border = NONE;
        known.spots.push(Spot { lowest, border })?;
        return Ok(());
    }
    let border = next_border(known.tells.len())?;
    push_tells(known, cut, v)?;
    known.spots.push(Spot { lowest, border })?;
    Ok(())
}

// Whether a vertex is marked; one without a mark counts as marked.
fn is_marked(marks: &[bool], v: u32) -> bool
    ensures { OnFalse result (slice_get marks.now v ≡ Some false) }
{
    match marks.get(v as usize) {
        Some(mark) => *mark,
        None => true,
    }
}

/// What is known of all vertices.
pub fn spots_of(alloc: Global, cut: &Cut) -> Result<Spots, AllocError>
    requires cut { IsCut cut.now.graph.now cut.now.cells.now cut.now.entries.now }
    ensures { IfOk result (λ known. AreSpots cut.now.graph.now cut.now.cells.now cut.now.entries.now known cut.now.graph.now.vertices) }
{
    let vertices = cut.graph.vertices();
    let marks = marks_in(alloc, vertices, cut.entries)?;
    let mut known = Spots {
        spots: Vec::with_capacity(alloc, vertices as usize)?,
        tells: Vec::new(alloc),
        crossings: Vec::new(alloc),
    };
    for v in 0..vertices {
        let marked = is_marked(&marks, v);
        push_spot(&mut known, cut, v, marked)?;
    }
    Ok(known)
}

impl Spots {
    /// What is known of a vertex.
    #[inline(always)]
    pub fn spot(&self, v: u32) -> Spot
        requires { v < length self.now.spots.items }
        ensures { slice_get self.now.spots.items v ≡ Some result }
    {
        self.spots[v as usize]
    }
}

impl Spot {
    /// What is told of the vertex at a level.
    #[inline(always)]
    pub fn tell(&self, tells: &[Tell], level: u32) -> Option<Tell>
        requires above { 1 ≤ level }
        requires there { self.now.border ≢ none → (tell : Tell) × (slice_get tells.now (self.now.border + (level - 1)) ≡ Some tell) }
        ensures { result ≡ tell_by tells.now level (Some self.now) }
    {
        if self.border == NONE {
            return None;
        }
        Some(tells[self.border as usize + (level as usize - 1)])
    }
}

impl Tell {
    /// The place of the vertex among the entries of its cell, if it is one.
    #[inline(always)]
    pub fn entry(&self) -> Option<usize>
        ensures some { IfSome result (λ i. (i ≡ self.now.place) × (i ≢ none)) }
        ensures none { result ≡ None → self.now.place ≡ none }
    {
        if self.place == NONE {
            return None;
        }
        Some(self.place as usize)
    }
}
