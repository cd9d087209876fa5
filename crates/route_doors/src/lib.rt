//! Serves a road network over opened doors: a worker for each query door, which answers under the metrics that its
//! seat enters, beside the desk behind the control door, which publishes metrics of traffic files.
//!
//! [`serve`] is that of `door_workers`, at the sessions of `route_server`. `specs/RoadDoors` has what it leaves: all
//! transcripts of all doors are right under one list of publications, which the control connections lead to.
#![tactic(auto)]

mod serving;
mod sessions;

pub use serving::serve;
