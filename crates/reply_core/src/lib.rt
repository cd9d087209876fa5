//! Answers: from one target, or one line, and one published metric to the bytes of the reply.
//!
//! [`answer`] and [`line_answer`] do all of it, and `specs/Answers` says what they answer, by cases. A target is read
//! once; then the set of classes of ways that it excludes is chosen, once, in `excluding_answers`, and all that follows
//! goes over the metric of those who avoid it and knows of no sets. `specs/`
//! has the definitions, to be read in this order: `Request` (which lines have a target; what a target asks
//! for is told by `url_read`), `Asked` (the coordinates with their filters), `RouteAsked` (whether the legs of a
//! route are one walk), `TripAsked` (which orders of them a trip may have), `Lacks` (what a request may lack under a metric) and `Answers` (what is due to each service). Where a coordinate stands on the roads is told by
//! `snap_index`, which walks are permitted and what they cost by `road_places`, which of them are least by
//! `road_walks`, which walk through several places is least by `road_through`, which trips are best by `road_trips`, what a reply's text says by `reply_texts`. Coordinates are microdegrees, lengths decimetres,
//! durations deciseconds.
//!
//! The requests and replies are those of OSRM's HTTP API, version 1, for the services `route`, `table`, `nearest`
//! and `trip`.
#![tactic(auto)]

mod answering;
mod answers;
mod asked_places;
mod asked_routes;
mod chosen_ends;
mod excluding_answers;
mod lacks;
mod nearest_answers;
mod request_answers;
mod route_answers;
mod table_answers;
mod trip_answers;
mod trip_rules;

pub use answering::{answer, line_answer};
pub use answers::{Answer, Places, ReplyFault, Walks};
pub use refusal_texts::Code;
