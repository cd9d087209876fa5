//! Cheapest walks by the cliques of a frame: the multi-level query of Customizable Route Planning (D. Delling,
//! A. V. Goldberg, T. Pajor and R. F. Werneck, 2017).
//!
//! `least` answers for each target a cheapest walk from one of the starts, and `None` exactly where there is none, as
//! `plain_search::least_from` does over the plain graph. All starts and targets are terminals. Where a cell holds none of
//! them, the search leaps over it from an entry to its exits; so it goes along arcs near the terminals, and far from
//! them over the borders of large cells alone. The walk is answered packed: as hops, each an arc or the shortcut of a cell.
//!
//! `cheapest` answers the cheapest of these walks alone, and `least_costs` what each costs, without the walks.
//!
//! `pack` makes the hops of a walk over any parts, also of those inside a cell.
//!
//! What a packed walk is stands in `specs/Packed.antt`, what is answered in `specs/Answers.antt`.
#![tactic(auto)]

mod costs;
mod hops;
mod nearest;
mod packed;
mod query;
mod terminal_marks;
mod terminals;

pub use costs::least_costs;
pub use hops::pack;
pub use nearest::cheapest;
pub use packed::{Hop, Hops, PackedFound, PackedWalk};
pub use query::least;
