//! All that Walnutkiln's program does, over what is handed in: reads a map and the settings of a vehicle, and counts what
//! is in them, answers lines of an input (targets under the last published metric, traffic files by publishing theirs),
//! or serves over HTTP; or writes a generated town, or drills on it.
//!
//! The contract of `run` is the program's theorem: `specs/Ending` says what stands in the output, by the status, and
//! what each status comes from. `run_to_end` is one call of it, on the words as the system hands them over, and what it
//! answers no one else can make. The program is `road_router`, and the tests are those of `worked_runs`, `worked_traffic`
//! and `worked_served`.
#![tactic(auto)]

mod endings;
mod running;
mod towns;
mod typed_words;

pub use endings::{Ended, run_to_end};
pub use running::{USAGE, ask, check, run};
pub use typed_words::typed_words_of;
