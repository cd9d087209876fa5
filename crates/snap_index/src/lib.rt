//! Snapping: the places on roads that stand for a coordinate. Coordinates are microdegrees, a place is so
//! many 1024ths along a segment, radiuses and distances are decimetres and bearings whole degrees.
//!
//! A [`Grid`] has where the segments of a network lie; [`snap`] looks in it for the nearest place, [`nearest`] for
//! more of them. `specs/` is to be read in this order: `Nearest` (the nearest place on a segment, and how far it
//! lies), `Kept` (which segments pass a [`Filter`] under some weights of the network's vertices, whichever these
//! are), `Snapped` (of the kept segments the first, and the nearest place on it) and `Firsts` (the first ones).
//! `Candidates` and `Index` are the crate's own.
#![tactic(auto)]

mod candidates;
mod extents;
mod filters;
mod frames;
mod grids;
mod indexes;
mod keeping;
mod searching;
mod snapping;

pub use filters::{Filter, Heading};
pub use grids::{Grid, SegmentEnds};
pub use snapping::{Snapped, nearest, snap};
