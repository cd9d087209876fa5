//! The vertices and arcs whose costs differ.

ghost use Rattle.std.specs.Prelude.{◌≡◌, ◌≢◌, IfOk, MatchBool};
ghost use Rattle.cell_recustomize.specs.Changes.{AreChanges, FitGraph};

use crate::places::Changed;
use search_graph::{Cost, Graph, Numbers, Weights};
use std::alloc::{AllocError, Global};

/// Exactly the vertices and the arcs whose costs two weightings of one graph do not share. A vertex that is open
/// in one and closed in the other is among these. It answers an error only where memory runs out.
pub fn changed<C: Cost>(
    alloc: Global,
    graph: &Graph,
    old: &Weights<C>,
    new: &Weights<C>,
) -> Result<Changed, AllocError>
    requires old { FitGraph graph.now old.now }
    requires new { FitGraph graph.now new.now }
    ensures vertices { IfOk result (λ changed. AreChanges old.now.vertex new.now.vertex changed.vertices) }
    ensures arcs { IfOk result (λ changed. AreChanges old.now.arc new.now.arc changed.arcs) }
{
    let vertices = changed_vertices(alloc, graph, old, new)?;
    let arcs = changed_arcs(alloc, graph, old, new)?;
    Ok(Changed { vertices, arcs })
}

// Whether two costs are one.
fn is_same<C: Cost>(a: C, b: C) -> bool
    ensures { MatchBool result (a ≡ b) (a ≢ b) }
{
    a.known();
    b.known();
    a.cmp(&b).is_eq()
}

// Whether two vertices are both closed, or both open at one cost.
fn is_same_vertex<C: Cost>(a: Option<C>, b: Option<C>) -> bool
    ensures { MatchBool result (a ≡ b) (a ≢ b) }
{
    match (a, b) {
        (None, None) => true,
        (Some(a), Some(b)) => is_same(a, b),
        _ => false,
    }
}

fn changed_vertices<C: Cost>(
    alloc: Global,
    graph: &Graph,
    old: &Weights<C>,
    new: &Weights<C>,
) -> Result<Numbers, AllocError>
    requires old { FitGraph graph.now old.now }
    requires new { FitGraph graph.now new.now }
    ensures { IfOk result (λ places. AreChanges old.now.vertex new.now.vertex places) }
{
    let mut places = Vec::new(alloc);
    for v in 0..graph.vertices() {
        if !is_same_vertex(old.vertex(v), new.vertex(v)) {
            places.push(v)?;
        }
    }
    Ok(Numbers::of(places))
}

fn changed_arcs<C: Cost>(
    alloc: Global,
    graph: &Graph,
    old: &Weights<C>,
    new: &Weights<C>,
) -> Result<Numbers, AllocError>
    requires old { FitGraph graph.now old.now }
    requires new { FitGraph graph.now new.now }
    ensures { IfOk result (λ places. AreChanges old.now.arc new.now.arc places) }
{
    let mut places = Vec::new(alloc);
    for i in 0..graph.arcs() {
        if !is_same(old.arc(i), new.arc(i)) {
            places.push(i)?;
        }
    }
    Ok(Numbers::of(places))
}
