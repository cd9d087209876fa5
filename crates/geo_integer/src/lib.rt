//! Geometry on the Earth in whole numbers: lengths, bearings, and the nearest place on a segment, each
//! exact and the same on every machine. Coordinates are microdegrees, lengths decimetres, bearings
//! degrees clockwise from north. Nothing here allocates or refuses. Worked values are tested in
//! `worked_maps`.
#![tactic(auto)]

mod bearings;
mod lengths;
mod nearest_place;
mod roots;

pub use bearings::{bearing, modifier};
pub use lengths::{cosine, distance, length, plane, plane_distance};
pub use nearest_place::{point_at, project};
