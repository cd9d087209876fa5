//! JSON texts, written from left to right.
//!
//! A [`Json`] takes the parts of one value in their order and keeps its text, with no blanks and
//! with the commas in their places, and hands it out. Any calls in a legal order leave a front of
//! the compact text of a JSON value (RFC 8259), and a finished text is that of a whole one.
#![tactic(auto)]

mod append;
pub mod draft;
mod members;
mod numbers;
mod writer;

pub use crate::writer::Json;
