//! Serving through doors, whatever serves a connection: a worker for each query door, each with a seat of the
//! board, beside the desk behind the control door, and what all their transcripts say together.
//!
//! A worker hands each connection that comes through its door to a [`Querying`] service, until the door ends.
//! The calling thread hands each connection of the control door to a [`Controlling`] service, which may
//! publish; where one asks to stop, or the control door fails, it closes the query doors. When all have ended,
//! each seat learns what the desk tells and enters once more. So [`serve`] can say that all transcripts are
//! right under one list of publications, that of the desk, which the control transcripts lead to.
//!
//! `specs/Passing` has what comes through one door, `specs/Leading` how control connections lead from list to
//! list, `specs/Serving` what a serving run leaves.
#![tactic(auto)]

mod control_loop;
mod pairing;
mod post_service;
mod posts;
mod serving;
mod sessions;
mod settling;
mod side_by_side;
mod turns;
mod workers;

pub use posts::Post;
pub use serving::{Served, serve};
pub use sessions::{Controlling, Querying, Then};
