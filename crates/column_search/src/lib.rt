//! What walks inside a cell cost from each of its entries to a vertex that it holds, by one search backwards.
//!
//! `column` goes from the vertex back along arcs, and over each cell on the way that doesn't hold the vertex from its exits to
//! its entries, at the cliques' values (D. Delling, A. V. Goldberg, T. Pajor and R. F. Werneck, Customizable Route Planning,
//! 2017). So a table has, for each destination, one search for all entries of a cell in place of one from each of them.
//!
//! What is answered stands in `specs/Columns`, what is gone over in `specs/Toward` and `specs/Backward`.
#![tactic(auto)]

mod backward;
mod columns;
mod toward;

pub use columns::{Overlay, column};
