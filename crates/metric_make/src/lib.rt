//! What the vertices and turns of a road network cost: weights in tenths, durations in deciseconds and lengths in
//! decimetres, by the profile of the vehicle and the rows of traffic files. Worked maps are tested in
//! `worked_metrics`.
#![tactic(auto)]

mod avoiding;
mod base_metric;
mod copies;
mod last_rows;
mod rows_of_ways;
mod speed_rows;
mod turn_rows;
mod turns;
mod under_speeds;
mod under_turns;
mod vertices;

pub use base_metric::{BaseMetric, base, metric};
