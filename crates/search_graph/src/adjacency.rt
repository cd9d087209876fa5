//! Directed graphs, as one list of arcs and an index of it by tail.

ghost use Rattle.std.specs.Prelude.{◌≡◌, ℕ, ◌+◌, ◌^◌, ◌<◌, ◌≤◌, ◌↔◌, List, length, Some, IfOk, IfErr, OnOk};
ghost use Rattle.std.specs.List.{slice_get, Contains};
ghost use Rattle.search_graph.specs.Digraph.{IsArc, Leaves};
ghost use Rattle.search_graph.specs.Faults.{AllInRange, IsGraphFault};
ghost use Rattle.search_graph.specs.Indexed.{IsAdjacency};

use crate::indexing::{Index, first_bad, index_by, offsets, tails};
use crate::rows::ArcRow;
use std::alloc::{AllocError, AllocFailed, Global};
use std::marker::Model;
use std::sync::Arc;

/// Why a graph was not made.
#[derive(Clone, Copy, Debug, PartialEq, Eq)]
pub enum GraphFault {
    /// The first arc, by its number, that names a vertex out of range.
    BadArc(u32),
    /// Memory ran out.
    Memory,
}

impl From<AllocError> for GraphFault {
    ghost use Rattle.std.specs.Prelude.{◌≡◌};
    ghost use Rattle.search_graph.specs.declared.adjacency.GraphFault.TheVariants.{Memory};

    ghost from_gives = { λ _ r. r ≡ Memory };

    fn from(_error: AllocError) -> GraphFault {
        GraphFault::Memory
    }
}

impl<T: Drop> From<AllocFailed<T>> for GraphFault {
    ghost use Rattle.std.specs.Prelude.{◌≡◌};
    ghost use Rattle.search_graph.specs.declared.adjacency.GraphFault.TheVariants.{Memory};

    ghost from_gives = { λ _ r. r ≡ Memory };

    fn from(_error: AllocFailed<T>) -> GraphFault {
        GraphFault::Memory
    }
}

// The arcs, and the index of their tails.
struct Adjacency {
    arcs: Vec<(u32, u32)>,
    first: Vec<u32>,
    // empty where the arcs come by tail: it would be 0, 1, 2 and so on
    order: Vec<u32>,
}

impl Drop for Adjacency {
    fn drop(self) {
        let Adjacency {
            arcs: _arcs,
            first: _first,
            order: _order,
        } = self;
    }
}

/// A directed graph whose vertices are numbered from 0: the arcs that it was made of, in their order.
///
/// It costs 4 bytes a vertex and 8 bytes an arc, and 4 bytes an arc more where the arcs don't come sorted by
/// their tails. Copies share one memory.
pub struct Graph {
    vertices: u32,
    shared: Arc<Adjacency>,
}

impl Drop for Graph {
    fn drop(self) {
        let Graph {
            vertices: _vertices,
            shared: _shared,
        } = self;
    }
}

impl Model for Graph {
    ghost use Rattle.std.specs.Arc.{arc_value};
    ghost use Rattle.search_graph.specs.Digraph.{Digraph};
    ghost use Rattle.search_graph.specs.Indexed.{IsAdjacency};

    ghost Value = { Digraph };

    ghost view = { λ g. record { vertices = g.vertices; arcs = (arc_value g.shared).arcs.items } };

    ghost invariant = { λ g. IsAdjacency g.vertices (arc_value g.shared).arcs.items (arc_value g.shared).first.items (arc_value g.shared).order.items };
}

impl Graph {
    /// The graph of these arcs, each from its first to its second vertex, over the vertices below
    /// `vertices`. The list itself is kept, and no copy of it made.
    ///
    /// It answers `BadArc` exactly where an arc names a vertex out of range, with the first such arc, or
    /// `Memory` where memory runs out.
    pub fn of(alloc: Global, vertices: u32, arcs: Vec<(u32, u32)>) -> Result<Graph, GraphFault>
        requires { length arcs.items < 2 ^ 32 }
        ensures ok { IfOk result (λ g. (g.vertices ≡ vertices) × (g.arcs ≡ arcs.items)) }
        ensures in_range { OnOk result (AllInRange vertices arcs.items) }
        ensures err { IfErr result (IsGraphFault vertices arcs.items) }
    {
        if let Some(i) = first_bad(vertices, &arcs) {
            return Err(GraphFault::BadArc(i as u32));
        }
        let adjacency = adjacency_of(alloc, vertices, arcs)?;
        let shared = Arc::new(alloc, adjacency)?;
        Ok(Graph { vertices, shared })
    }

    /// A copy, which shares the memory of this graph. It answers the error where no more can share it.
    pub fn copy(&self) -> Result<Graph, AllocError>
        ensures same { IfOk result (λ g. g ≡ self.now) }
        ensures in_range { OnOk result (AllInRange self.now.vertices self.now.arcs) }
    {
        let shared = Arc::try_clone(&self.shared)?;
        Ok(Graph {
            vertices: self.vertices,
            shared,
        })
    }

    /// Tells a proof that all arcs are in range. It does nothing.
    pub fn known(&self)
        ensures { AllInRange self.now.vertices self.now.arcs }
    {
        let _ = &self.shared;
    }

    /// How many vertices there are.
    #[inline(always)]
    pub fn vertices(&self) -> u32
        ensures { result ≡ self.now.vertices }
    {
        self.vertices
    }

    /// How many arcs there are.
    pub fn arcs(&self) -> u32
        ensures { result ≡ length self.now.arcs }
    {
        self.shared.arcs.len() as u32
    }

    /// The two ends of arc `i`: it leads from the first to the second.
    #[inline(always)]
    pub fn arc(&self, i: u32) -> (u32, u32)
        requires { i < length self.now.arcs }
        ensures is { IsArc self.now i result.0 result.1 }
        ensures in_range { (result.0 < self.now.vertices) × (result.1 < self.now.vertices) }
    {
        self.shared.arcs[i as usize]
    }

    /// The numbers of the arcs that leave `v`, each once, in ascending order.
    #[inline(always)]
    pub fn out(&self, v: u32) -> ArcRow<'_>
        requires { v < self.now.vertices }
        ensures leaves { (i : ℕ) → Contains result i ↔ Leaves self.now i v }
        ensures ascending { (k l i j : ℕ) → k < l → slice_get result k ≡ Some i → slice_get result l ≡ Some j → i < j }
    {
        let lists: &Adjacency = &self.shared;
        let from = lists.first[v as usize];
        let to = lists.first[v as usize + 1];
        let order = lists.order.as_slice();
        if order.is_empty() {
            return ArcRow::range(from, to - from);
        }
        ArcRow::listed(&order[from as usize..to as usize])
    }
}

// The arcs with the index of their tails.
fn adjacency_of(
    alloc: Global,
    vertices: u32,
    arcs: Vec<(u32, u32)>,
) -> Result<Adjacency, AllocError>
    requires few { length arcs.items < 2 ^ 32 }
    requires in_range { AllInRange vertices arcs.items }
    ensures arcs { IfOk result (λ a. a.arcs.items ≡ arcs.items) }
    ensures indexed { IfOk result (λ a. IsAdjacency vertices arcs.items a.first.items a.order.items) }
{
    if let Some(first) = offsets(alloc, vertices, &arcs)? {
        let order = Vec::new(alloc);
        return Ok(Adjacency { arcs, first, order });
    }
    let tails = tails(alloc, &arcs)?;
    let Index { first, order } = index_by(alloc, vertices, &tails)?;
    Ok(Adjacency { arcs, first, order })
}
