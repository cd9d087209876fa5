//! The sequences of vertices that turn restrictions over via ways forbid on a map's road segments, in groups that share
//! their middle, and how many of these restrictions forbid one ([`Found::of`]). `specs/ViaWays` says which sequences they
//! are. Worked maps are tested in `worked_maps`.
#![tactic(auto)]

mod courses;
mod turning;
mod via_ways;
mod via_words;
mod way_sets;

pub use via_words::Found;
