//! The best trip through some places, over a table of what it costs to go from each to each.
//!
//! A trip goes through all places once, and may return to the one where it began. [`best`] takes two to nine places
//! and a [`Rule`]: whether a trip returns, and whether it begins at the first place and ends at the last. Of the
//! orders that the rule admits it answers one that costs least, of several the first in lexicographic order, and
//! `None` exactly where each of them lacks a leg. It knows no graph: the costs are those that searches have found, as
//! in a table of `table_query`.
//!
//! Orders are not tried one by one. For each set of places and each place there is a least cost to go on from the
//! place through the set, its tail, which comes of the tails of the smaller sets (M. Held and R. M. Karp, "A dynamic
//! programming approach to sequencing problems", 1962). For n places that takes 2^n * n^2 steps whatever the legs
//! cost, and keeps 2^n * n costs.
//!
//! `specs/Trips` says what trips are, what they cost and which is the best, `specs/Orders` what the first of the
//! cheapest is.
#![tactic(auto)]

mod best_trips;
mod paid;
mod rules;
mod steps;
mod tails;
mod trips;

pub use best_trips::best;
pub use rules::{Destination, Rule, Source};
pub use trips::Trip;

#[cfg(test)]
mod tests;
