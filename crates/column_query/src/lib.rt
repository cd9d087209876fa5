//! What cheapest walks cost from some starts to each of many targets, by the cliques of a frame and by columns of the
//! targets that were made beforehand.
//!
//! A query by cliques alone (`overlay_query`) opens the cells of its starts and those of its targets. Here only the cells of
//! the starts are opened: a target has for each level the column of its cell, what a cheapest walk inside the cell costs
//! from each of its entries to the target. The search goes on until the entries of the target's highest cell that holds no
//! start, and the least sum of what leads to an entry and what its column has is what a cheapest walk costs. So a table's
//! rows share what is found near its targets.
//!
//! What columns are stands in `column_search` and in `specs/Columns.antt`.
#![tactic(auto)]

mod columns;
mod costs;
mod forward;
mod making;
mod paths;

pub use columns::{Column, TargetColumns, TargetPoint};
pub use costs::costs_by_columns;
pub use forward::Forward;
