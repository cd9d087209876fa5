//! The drill on a generated town: routes between its nodes under its own metric and under three metrics of speed rows,
//! and how many there are and how long they take.
//!
//! [`drill`] does it. `specs/` is to be read in this order: `Asked` (what is asked of the town), `Trips` (what comes of
//! a trip between two positions) and `Drill` (what is told of the trips).
#![tactic(auto)]

mod asked;
mod drills;
mod metrics;
mod telling;
mod trips;

pub use drills::drill;
pub use trips::Trip;

#[cfg(test)]
mod plain_tests;
#[cfg(test)]
mod tests;
