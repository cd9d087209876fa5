//! Reads traffic files as OSRM takes them (`--segment-speed-file`, `--turn-penalty-file`): CSV without a header
//! row, to rows of numbers, or to the first faulty row.
//!
//! `specs/Rows` says what one record stands for, and `specs/Files` what a whole file reads as.
#![tactic(auto)]

mod fields;
mod numbers;
mod reading;
mod records;
mod rows;

pub use reading::{read_speeds, read_turns};
pub use rows::{RowFault, RowKind, SpeedRow, TrafficFault, TrafficFile, TurnRow};
