//! Where two weightings differ.

use cell_recustomize::{Changed, changed};
use cost_texts::vertices_told;
use search_graph::Graph;
use small_graphs::{Drawing, STREETS, graph, weights};
use std::alloc::{AllocError, Global};
use std::test::Fail;

/// The two streets, with the second way closed.
const CLOSED: Drawing = Drawing {
    vertex_costs: "99/1111 - 99/1111 99/1111",
    ..STREETS
};

/// The two streets, where the last turn back is cheaper.
const CHEAPER: Drawing = Drawing {
    arc_costs: "0/0 0/0 200/0 199/0",
    ..STREETS
};

// The vertices of these places, and the arcs.
fn places_told(alloc: Global, places: &Changed) -> Result<String, AllocError> {
    let mut text = vertices_told(alloc, places.vertices.as_slice())?;
    text.push_str("| ")?;
    text.push_str(vertices_told(alloc, places.arcs.as_slice())?.as_str())?;
    Ok(text)
}

// The vertices and the arcs at which the costs of two drawings differ.
fn changes_told(
    alloc: Global,
    graph: &Graph,
    old: &Drawing,
    new: &Drawing,
) -> Result<String, AllocError> {
    let old = weights(alloc, graph, old)?;
    let new = weights(alloc, graph, new)?;
    let places = changed(alloc, graph, &old, &new)?;
    places_told(alloc, &places)
}

#[test]
fn an_opened_vertex_and_a_cheaper_arc_are_told(rt: HostRuntime) -> Result<(), Fail> {
    let graph = graph(rt.alloc(), &STREETS)?;
    let both = changes_told(rt.alloc(), &graph, &CLOSED, &CHEAPER)?;
    assert_eq!(rt; both.as_str(), "1 | 3 ");
    let none = changes_told(rt.alloc(), &graph, &CHEAPER, &CHEAPER)?;
    assert_eq!(rt; none.as_str(), "| ");
    Ok(())
}
