//! The generated town of a number, as OPL text: a map of any size for tries and measurements.
//!
//! [`town`] writes the text, and `specs/Town` says which it is.
#![tactic(auto)]

mod lines;
mod nodes;
mod restrictions;
mod streets;
mod towns;

pub use towns::town;
