//! Walnutkiln's program: reads a map and the settings of a vehicle, and counts what is in them, answers lines of
//! standard input (targets under the last published metric, traffic files by publishing theirs), or serves over HTTP;
//! or writes a generated town, or drills on it.
//!
//! `run` does all that the program does over what is handed in, and its contract is the program's theorem: it stands in
//! `road_run`, where `specs/Ending` says what stands in the output, by the status, and what each status comes from.
//! `main` makes the real things and runs on them; what it answers only a run can make.
#![tactic(auto)]

use road_io::OpenGate;
use road_real::{Reading, SystemFiles, TcpDoors, Writing};
pub use road_run::{Ended, ask, check, run};
use road_run::{run_to_end, typed_words_of};
use std::io;

fn main(rt: HostRuntime) -> Ended {
    run_to_end(
        &rt,
        rt.alloc(),
        typed_words_of(&rt),
        &mut SystemFiles::of(&rt),
        &mut Reading::of(rt.reader()),
        &mut Writing::of(io::writer(&rt)),
        &mut TcpDoors::of(&rt),
        &OpenGate,
    )
}
