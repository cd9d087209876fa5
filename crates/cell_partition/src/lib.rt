//! A nested partition of vertices into cells, from where the vertices lie.
//!
//! It is the first stage of Customizable Route Planning (Delling, Goldberg, Pajor
//! and Werneck): no weights, only places. Vertices are halved along the wider axis
//! until parts hold at most the highest limit; these are the cells of the highest
//! level, and each is halved on for the level below. Before the first cut the vertices
//! are sorted once along each axis, and each half keeps both orders, from level to level.
//! How good the cells are for queries is not claimed; that they nest and that each vertex
//! has one cell in each level is. The halving rule is this project's own.
#![tactic(auto)]

mod cutting;
mod halving;
mod level;
mod numbering;
mod part;
mod partition;
mod parts;
mod sorting;
mod spot;
mod tables;

pub use cutting::{PartitionError, cells};
pub use partition::Cells;
