//! What walks cost inside the cells of a frame, for given weights: the customization of Customizable Route Planning
//! (D. Delling, A. V. Goldberg, T. Pajor and R. F. Werneck, 2017).
//!
//! Each entry of a cell has one search inside the cell, over the cliques one level down; in cells of level 1 it goes over arcs
//! alone. So the levels come from the lowest up, and the cells of one level don't depend on one another.
//!
//! The searches of a cell go over a small graph of its own: the vertices to which they come, under numbers from 0, and out
//! of each its leaps, where a place of a row and an arc behind it are one hop. So no exit is queued but those of the cell.
#![tactic(auto)]

mod customizing;
mod leaping;
mod leaps;
mod local;
mod numbering;
mod pieces;
mod renamed;
mod rows;
mod scratch;
mod side_by_side;
mod turns;

pub use customizing::customize;
pub use pieces::Piece;
pub use rows::clique;
pub use scratch::Scratch;
pub use side_by_side::{PIECES, customize_in_threads, cut, level_of};
pub use turns::Turns;
