//! What replies say of steps: a step as JSON, with what it costs, its line, and what a driver is told where it begins,
//! in the form of OSRM's HTTP API, version 1.
//!
//! [`push_steps`] writes the steps of a leg behind what stands. What steps share with the legs and routes that they
//! are parts of, costs and lines, is written by calls of its own: [`push_totals`], [`push_overview`]. To be read in
//! this order: `specs/Totals`, `Lines`, `Intersections`, `Steps`.
//!
//! Coordinates are microdegrees, lengths decimetres, durations deciseconds, weights tenths of what is printed.
#![tactic(auto)]

mod driving_sides;
mod intersections;
mod lines;
mod steps;
mod totals;
mod weight_names;

pub use driving_sides::DrivingSide;
pub use lines::push_overview;
pub use steps::push_steps;
pub use totals::{Totals, leg_totals, push_totals};
pub use weight_names::WeightName;
