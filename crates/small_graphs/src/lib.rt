//! Small graphs that a reader follows by hand, drawn as texts, and their weights, cells and cliques, for the tests of searches
//! and of cells. A text that draws none is told as want of memory: it too ends the test that draws it.
#![tactic(auto)]

mod drawings;
mod ends;
mod graphs;
mod numbers;
mod overlays;
mod plain_walks;
mod weighing;

pub use drawings::{Drawing, RING_OF_EIGHT, RING_OF_TEN, SMALL, STREETS, WEIGHED, WEIGHED_RING};
pub use ends::{starts, targets};
pub use graphs::{cells_of, frame, graph, graph_of};
pub use numbers::parts_of;
pub use overlays::{Overlay, cut};
pub use plain_walks::{plain_told, walks_told};
pub use weighing::weights;
