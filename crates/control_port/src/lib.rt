//! The control port: what its requests ask for, what comes of them, and what their replies say.
//!
//! [`ControlHead::of`] says what a head asks for, [`control`] does it over any board of metrics that share their
//! roads, [`publish_files`] does it of two files alone, and [`ReplyRoom`] writes the reply without memory, so that none runs out once a metric is published.
//! [`rows_of_files`] and [`base_of_rows`] are for who begins with two files.
//! `specs/` is to be read in this order: `Asking` (what a head asks for), `Controlling` (what comes of two traffic
//! files and of a request, and what is published then), `Telling` (what the reply says), `ManyControls` (what any number of requests
//! add to the list).
#![tactic(auto)]

mod asking;
mod controlled;
mod controls;
mod laws;
mod numbers;
mod replies;
mod rows;

pub use asking::{Announced, ControlHead, MOST_BYTES};
pub use controlled::{Controlled, file_text, kind_text};
pub use controls::{control, publish_files};
pub use laws::{publications_are_from_scratch, requests_have_one_answer};
pub use replies::{BodyRoom, ReplyRoom};
pub use rows::{TrafficRows, base_of_files, base_of_rows, rows_of_files};
