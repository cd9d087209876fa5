//! Tables of least costs by the cliques of a frame: from each of several lists of starts to each of several lists of
//! targets.
//!
//! [`table`] has a row for each list of starts, in their order, and in each row a value for each list of targets,
//! in theirs: the least that a walk from one of the starts to one of the targets costs, and `None` exactly where
//! there is no such walk. What walks are and cost is told by `search_graph`: they have two or more vertices.
//!
//! Of a table of few rows, or of more columns than rows, each row is one search of `overlay_query`, which goes on through the
//! targets of all columns. Of any other each target has first what it costs from the entries of its cells (`column_search`),
//! and each row is then a search that opens the cells of its starts alone (`column_query`). No walk is made, and rows and
//! targets are taken side by side, each by the next thread that is free (`self_scheduling`). `specs/Tables` says what a table
//! is, `specs/LeastCosts` what the least of costs is; `specs/LesserLaws` has what follows for the lesser of two.
#![tactic(auto)]

mod choosing;
mod columns;
mod lists;
mod points;
mod tables;

pub use choosing::lesser;
pub use lists::{Row, Starts, Targets};
pub use tables::table;
