//! How the commands of the program read the files of their words, and the lines and statuses on which a run ends
//! that does not come to what it is for.
//!
//! `specs/FileReads` says which files were read and what came of it, `specs/StoppedEarly` how such a run ends.
#![tactic(auto)]

mod ending;
mod reading;

pub use ending::{close, end_exhausted, end_refused, end_unread, put_line};
pub use reading::{Unread, read_both, read_file, read_named};
