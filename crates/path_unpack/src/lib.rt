//! Walks along arcs in place of packed ones: the unpacking of Customizable Route Planning (D. Delling, A. V. Goldberg,
//! T. Pajor and R. F. Werneck, 2017).
//!
//! `unpack` opens the shortcuts of a packed walk, and answers a walk of the same ends at exactly the same cost. All
//! shortcuts of the highest level are opened first, each by a search inside its cell over the cells one level down; then
//! those of the next level; after level 1 all hops are arcs.
//!
//! `least_from` answers what `plain_search::least_from` does over the plain graph, by a query over the cliques and the
//! unpacking of what that finds.
//!
//! What it means that a walk stands for a packed one is in `specs/Unpacked.antt`.
#![tactic(auto)]

mod opening;
mod overlay;
mod refining;
mod unpacking;
mod walks;

pub use unpacking::unpack;
pub use walks::{cheapest_from, least_from};
