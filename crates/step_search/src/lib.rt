//! Dijkstra's search, proved once, over any steps: what leads out of a vertex is asked of a trait, `Steps`,
//! so that plain graphs, the inside of a cell and an overlay share one search.
//!
//! A search goes from several starts, each with a cost of its own, and answers for each target a path of the
//! least cost, and none exactly where there is none. It goes on until its target is settled, or nothing is left.
//! Its work follows what it touches: each vertex that it comes to has a label (`search_labels`), and the nearest vertex
//! comes from a queue by ranks (`search_queue`). Where rows are gone along, what the offers along each of them have
//! cost is kept side by side (`row_labels`).
//!
//! `least` answers a list of targets at once. The parts of `Search` serve who wants to go target by target, or
//! to begin anew in the same memory.
//!
//! What a space is stands in `specs/Spaces`, what is answered in `specs/Paths`. The arcs of a graph as a space,
//! and the passage from a path to a walk with its target's cost, stand in `specs/ArcSpace`, `specs/ArcLaws` and
//! `specs/TargetLaws`.
#![tactic(auto)]

mod dijkstra;
mod hops;
mod links;
mod settling;

pub use dijkstra::{Reached, Search, least};
pub use hops::{Hop, Steps};
