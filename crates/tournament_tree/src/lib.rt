//! The least of the keys of numbered items, each of which may change: a tournament tree.
//!
//! The key of an item may be lowered, and the item of the least key taken, in as many steps as the number of items has binary
//! digits. What the calls do to the keys stands in `specs/Keys`.
#![tactic(auto)]

mod tree;

pub use tree::TournamentTree;
