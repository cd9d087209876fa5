//! A graph cut into nested cells, as Customizable Route Planning has it (D. Delling, A. V. Goldberg, T. Pajor and
//! R. F. Werneck, 2017): the entries and exits of each cell, what walks cost inside one, and the steps of a search
//! over parts.
//!
//! A search sees each vertex either in a part, which is a cell of some level, or alone; `Parts` says which. Between parts it
//! goes along arcs, and through a part from an entry to the exits at the least costs inside it. `Terminals` are the parts
//! of a query, `Below` those inside a cell, by which its own least costs are found.
#![tactic(auto)]

mod borders;
mod building;
mod cells;
mod cliques;
mod crossings;
mod frame;
mod leads;
mod listing;
mod marks;
mod over;
mod parts;
mod side;
mod spots;

pub use borders::Border;
pub use cells::{Cell, Part};
pub use cliques::{Cliques, LevelCliques};
pub use crossings::Crossing;
pub use frame::Frame;
pub use over::Over;
pub use parts::{Below, Parts, Terminals};
