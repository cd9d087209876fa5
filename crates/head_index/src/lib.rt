//! The arcs of a graph by their heads, for searches backwards.
//!
//! A graph has its arcs by their tails (`search_graph`). Here the numbers of the arcs that lead to a vertex stand in a row, by a
//! counting sort of their heads. What the index of a graph is stands in `specs/ByHead`.
#![tactic(auto)]

mod by_head;

pub use by_head::HeadIndex;
