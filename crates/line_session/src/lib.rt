//! Answers the lines of an input, one reply a line: a target under the last published metric, traffic files by
//! publishing their metric. How the input is cut into pieces makes no difference. `specs/` is to be read in this
//! order: `Publication` (what is published, and what comes of traffic files), `Traffic` (which lines name them),
//! `Told` (what is told of an input), `Growing` and `Stopping` (what a call leaves). The tests are in
//! `worked_runs` and `worked_traffic`.
#![tactic(auto)]

mod asking;
mod published;
mod replying;
mod traffic_lines;

pub use asking::{Stop, answer_lines};
pub use published::Published;
