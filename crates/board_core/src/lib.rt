//! The pure core of live publication: what a board of publications answers to
//! each list of events, with no threads and no shared memory.
//!
//! A desk publishes entries under rising numbers, seats enter with the last one,
//! and notes carry numbers from the desk to a seat. A running board takes the same
//! steps one at a time, so what is proved here of every list of events says what
//! its steps have to answer. These rules are this project's own.
#![tactic(auto)]

mod event;
mod machine;
#[cfg(test)]
mod tests;

pub use event::{Event, Outcome};
pub use machine::{Machine, MachineError};
