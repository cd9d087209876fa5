//! Shortest paths in a plain graph: the cheapest walks from several starts to each of several targets.
//!
//! A walk has two or more vertices. It pays what its start asks, each arc that it takes, each vertex in its
//! middle, and what its target asks; closed vertices are in no walk. `least_from` answers a cheapest walk
//! and its cost, and `None` exactly where there is no walk.
//!
//! The search is Dijkstra's (E. W. Dijkstra, "A note on two problems in connexion with graphs", 1959), which
//! `step_search` has proved over any steps; here its steps are the arcs of a graph. A query's time and memory
//! follow the vertices that it touches, with 4 bytes for each vertex of the graph beside them.
#![tactic(auto)]

mod along;
mod finish;
mod found;
mod queries;

pub use along::Along;
pub use found::{Found, SearchFault};
pub use queries::least_from;
