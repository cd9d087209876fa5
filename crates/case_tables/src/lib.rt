//! Tables of cases as one text each, for tests: a proof takes time for each value of a list, and none for a text.
#![tactic(auto)]

mod rows;

pub use rows::{count, pair, row, triple};
