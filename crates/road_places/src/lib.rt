//! Places on road segments, and the walks between two of them that are permitted, with what they cost.
//! Weights are tenths of what is printed, durations deciseconds, lengths decimetres; a place is so many 1024ths along a
//! segment.
//!
//! `specs/` is to be read in this order: `RoadMetric` (a network with its costs), `Places` (how a place lies on the
//! two directions of its segment, and what a part of a vertex costs), `Permitted` (walks from place to place), `Paid`
//! (what a walk pays at each of its vertices and turns) and `Ends` (where walks from a place start, and where walks
//! to one end). `PartLaws`, `PaidLaws` and `EndLaws` have what follows from these.
//!
//! Nothing here knows of a search. A segment's parts and their costs are this project's rule.
#![tactic(auto)]

mod ends;
mod places;
mod walks;

pub use ends::{start_at, starts, target_at, targets};
pub use places::{before, parts_along};
pub use walks::{Route, Walk};
