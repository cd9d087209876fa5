//! A search from one vertex to all others, with a label for each vertex of the space side by side.
//!
//! It serves small spaces, as the inside of a cell, that are searched whole from one vertex after another: there it is faster
//! than the search of `step_search`, which follows what it touches and keeps the paths. It keeps costs alone, takes the
//! cheapest entry of its queue first, and passes over one whose vertex's label has fallen since. Most arcs offer nothing
//! better: that is seen by the ranks of labels and arcs, each one number, without a look at costs.
#![tactic(auto)]

mod arc_ranks;
mod frontier;
mod label_list;
mod labels;

pub use arc_ranks::ArcRank;
pub use label_list::LabelList;
pub use labels::Labels;
