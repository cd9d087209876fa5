//! The arcs that lead to each vertex.

use cost_texts::vertices_told;
use head_index::HeadIndex;
use search_graph::Graph;
use small_graphs::graph_of;
use std::alloc::{AllocError, Global};
use std::test::Fail;

// The numbers of the arcs into each vertex.
fn heads_told(alloc: Global, graph: &Graph) -> Result<String, AllocError> {
    let index = HeadIndex::of(alloc, graph)?;
    let mut text = String::new(alloc);
    for vertex in 0..graph.vertices() {
        text.push_str(vertices_told(alloc, index.leading_to(vertex))?.as_str())?;
        text.push_str("| ")?;
    }
    Ok(text)
}

// Two arcs lead from 0 to 1 and two from 2 to 0, one from 1 to itself, and none to 3.
#[test]
fn an_index_lists_the_arcs_into_each_vertex(rt: HostRuntime) -> Result<(), Fail> {
    let graph = graph_of(rt.alloc(), 4, "0-1 2-0 1-1 0-1 1-2 2-0")?;
    let told = heads_told(rt.alloc(), &graph)?;
    assert_eq!(rt; told.as_str(), "1 5 | 0 2 3 | 4 | | ");
    Ok(())
}

#[test]
fn an_index_of_no_arcs_has_an_empty_list_for_each_vertex(rt: HostRuntime) -> Result<(), Fail> {
    let graph = Graph::of(rt.alloc(), 3, Vec::new(rt.alloc()))?;
    let told = heads_told(rt.alloc(), &graph)?;
    assert_eq!(rt; told.as_str(), "| | | ");
    let nothing = Graph::of(rt.alloc(), 0, Vec::new(rt.alloc()))?;
    let told = heads_told(rt.alloc(), &nothing)?;
    assert_eq!(rt; told.as_str(), "");
    Ok(())
}
