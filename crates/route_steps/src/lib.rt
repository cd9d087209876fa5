//! What a walk on roads between two places is told by: its points, what it pays at each of its vertices, with
//! the nodes that it passes, and its steps, which tell a driver where to turn. Weights are tenths of what a reply prints,
//! durations deciseconds, lengths decimetres, coordinates microdegrees, bearings whole degrees.
//!
//! [`leg_points`] gives the points of a walk, [`annotate`] what it pays and where it passes, [`speed`] how fast
//! a part of it is, [`steps`] its steps. `specs/` is to be read in this order: `Points` (where a walk leads),
//! `Annotations` (the nodes along it, and speeds), `Maneuvers` (the table of turns), `Roundabouts` (what a walk meets on
//! them), `Turnings` (what it meets at its turns), `Ways` (what leaves its nodes), `Intersections` (what is told of these), `Steps` (the pieces into which
//! it is cut) and `StepSums` (that these are the whole of it). What it pays at its vertices is told by `road_places`,
//! in `Paid`. `CutLaws` has what holds however a walk is cut, `StepLaws` what holds of the steps of a permitted walk.
//!
//! Each takes time in proportion to the walk; steps also by n log n for the n vertices that leave a node of it.
#![tactic(auto)]

mod annotations;
mod begins;
mod intersection_lists;
mod intersections;
mod maneuvers;
mod paid;
mod roundabouts;
mod speeds;
mod step_lists;
mod turnings;
mod walk_points;
mod walk_steps;
mod ways;

pub use annotations::{Annotation, annotate};
pub use intersection_lists::{Flags, Intersection, Intersections};
pub use maneuvers::{Maneuver, ManeuverKind};
pub use paid::Costs;
pub use speeds::speed;
pub use step_lists::{Step, Steps};
pub use walk_points::leg_points;
pub use walk_steps::steps;
