//! What replies say: the value of each as JSON, and its text, in the form of OSRM's HTTP API, version 1.
//!
//! [`route_text`], [`trip_text`], [`nearest_text`] and [`table_text`] write replies with a result; those without are
//! `refusal_texts`'. `specs/` says what each says, as a value made of lists of members, of which the absent ones are
//! dropped; a reply is the compact text of its value (`json_text`), and is written once. What is told of a leg's steps
//! stands in `step_texts`. To be read in this order: `Waypoints`, `Costs`, `Legs`, `RouteLegs` (a leg of a route on
//! roads), `Replies`.
//!
//! Which reply is due is not known here. Coordinates are microdegrees, lengths decimetres, durations deciseconds.
#![tactic(auto)]

mod annotations;
mod cost_parts;
mod legs;
mod nearest_texts;
mod route_lines;
mod route_texts;
mod table_texts;
mod trip_texts;
mod trip_waypoints;
mod waypoints;

pub use cost_parts::CostPart;
pub use nearest_texts::nearest_text;
pub use route_texts::route_text;
pub use table_texts::table_text;
pub use trip_texts::{Tour, trip_text};
pub use waypoints::Stops;
