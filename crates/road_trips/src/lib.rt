//! The best trip through places on roads.
//!
//! [`best_trip`] takes two to nine places and a rule: whether the trip returns, and where it begins and ends. It
//! answers the order in which the trip comes to the places, where it stops, and a least route along each of its
//! legs, or `None` exactly where each order that the rule admits has a leg without a permitted walk. `specs/Trips` says
//! what that is. The order is `trip_query`'s over what least walks cost from each place to each, which are one table of
//! `road_walks`; the routes are its least routes along the stops.
#![tactic(auto)]

mod orders;
mod road_trips;
mod stops;

pub use road_trips::{RoadTrip, best_trip};
pub use trip_query::{Destination, Rule, Source, Trip};
