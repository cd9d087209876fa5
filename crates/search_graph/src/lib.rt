//! What every search of this project stands on: lawful costs, a directed graph, the weights of its
//! vertices and arcs, and the words in which a search says what it found.
//!
//! A vertex may be closed, which is a vertex without a cost. A walk runs over open vertices along
//! arcs. It pays for each arc, and for each vertex that it enters. The definitions stand in `specs/`:
//! `Costs` (what a lawful cost is), `Digraph` (graphs and weights), `Walks` (walks, and the least of
//! them), `Weighted` (which weights a search takes) and `Indexed` (an index of keys). What follows from
//! them stands there too: `OrderLaws`, `ChainLaws`, `WeightLaws` and `UnitLaws`.
//!
//! The laws are those of Dijkstra's shortest paths (E. W. Dijkstra, "A note on two problems in
//! connexion with graphs", 1959); the bounds on sizes are this project's rule.
#![tactic(auto)]

mod adjacency;
mod costs;
mod ends;
mod indexing;
mod laws;
mod numbers;
mod rows;
mod weighting;

pub use adjacency::{Graph, GraphFault};
pub use costs::{Cost, WeightDurLen};
pub use ends::{Start, Target};
pub use indexing::{Index, index_by};
pub use laws::simple_walks_are_within_bounds;
pub use numbers::Numbers;
pub use rows::ArcRow;
pub use weighting::{Weights, small_weights};
