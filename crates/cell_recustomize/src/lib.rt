//! Cliques for changed weights: only the cells that the change touches are customized anew, level by level from the
//! lowest, as in Customizable Route Planning (D. Delling, A. V. Goldberg, T. Pajor and R. F. Werneck, 2017).
//!
//! A cell is touched that holds a changed vertex, or both ends of a changed arc. A walk inside any other cell meets
//! nothing that changed, so its rows are kept. A cell above a touched one holds what that one holds, so it is touched
//! itself, and is made by new rows.
//!
//! [`changed`] tells where two weightings of one graph differ.
#![tactic(auto)]

mod changes;
mod counting;
mod keeping;
mod marking;
mod pieces;
mod places;
mod recustomizing;
mod side_by_side;

pub use changes::changed;
pub use places::Changed;
pub use recustomizing::{Recustomized, recustomize};
pub use side_by_side::recustomize_in_threads;
