//! The command `serve` of the program: reads the files of its words, opens doors at two addresses, serves what comes
//! through them until it is asked to stop, and prints how many connections there were and the number of the last
//! metric.
//!
//! `specs/Start` says which files are read and what they make, `specs/ServeEnding` how a run ends, by its status: what
//! stands in the output, and what was done with the doors.
#![tactic(auto)]

mod ending;
mod laws;
mod preparing;
mod serving;

pub use laws::steady_runs_never_end_for_the_outside;
pub use serving::serve;
