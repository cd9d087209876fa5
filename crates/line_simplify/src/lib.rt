//! Simplifying lines: fewer points that show the same line, by the algorithm of Douglas and Peucker.
//! Coordinates and tolerances are microdegrees.
//!
//! [`simplify`] drops the points that lie near enough to the line through the others, [`tolerance_of`] says
//! how near that is where a whole line is to be seen at once.
#![tactic(auto)]

mod blocks;
mod bounds;
mod extents;
mod finds;
mod parts;
mod simplifying;
mod tolerances;

pub use simplifying::simplify;
pub use tolerances::tolerance_of;
