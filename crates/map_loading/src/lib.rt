//! Makes the road network of a map and a vehicle's settings, or the line on which they are refused, and
//! counts what is in both. `specs/Loading` says what a map and settings come to, `specs/Counting` what
//! their counts are. The tests are in `worked_runs`.
#![tactic(auto)]

mod counting;
mod loading;

pub use counting::{Counts, check_text, counts_of};
pub use loading::{LoadFault, Loaded, load};
