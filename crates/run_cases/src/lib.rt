//! Runs of the program in memory over worked maps, settings and lines, of which one call may fail: for the tests of what is
//! asked, of traffic and of what is served.
#![tactic(auto)]

mod cases;
mod runs;
mod towns;

pub use cases::{Case, Fault, files, files_of, input_of, named, output_of, words};
pub use runs::{begins, ends, run_case, run_over, shows};
pub use towns::{LINE, REPLY, SETTINGS, SOUTH_TO_WEST, TOWN, TOWN_NAMED, repeated, star};
