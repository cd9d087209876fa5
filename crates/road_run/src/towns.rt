//! The commands over a generated town.

ghost use Rattle.std.specs.Prelude.{◌≤◌};
ghost use Rattle.road_run.specs.TownEnding.{EndsDrill, EndsPut, EndsTown};

use map_loading::LoadFault;
use program_ends::{end_exhausted, end_refused};
use road_base::Status;
use road_io::{Sink, put_all};
use std::alloc::Global;
use std::thread::Threads;

// Puts a text.
fn put_text<O: Sink>(text: &str, output: &mut O) -> Status
    ensures { EndsPut result text.now (O.view output.old) (O.view output.new) }
{
    match put_all(output, text.as_bytes()) {
        Ok(()) => Status::Ok,
        Err(_) => Status::Outside,
    }
}

/// Puts the text of town `n`. It waits for nobody but the output.
pub fn town<O: Sink>(alloc: Global, n: u32, output: &mut O) -> Status
    requires some { 2 ≤ n }
    requires few { n ≤ 1000 }
    ensures { EndsTown result n (O.view output.old) (O.view output.new) }
{
    match town_text::town(alloc, n) {
        Ok(text) => put_text(text.as_str(), output),
        Err(_) => end_exhausted(output),
    }
}

/// Puts the four lines of the drill on town `n`. Metrics are customized in threads. It waits for nobody but the output.
pub fn drill<R: Threads + Sync, O: Sink>(rt: &R, alloc: Global, n: u32, output: &mut O) -> Status
    requires some { 2 ≤ n }
    requires few { n ≤ 1000 }
    ensures { EndsDrill result n (O.view output.old) (O.view output.new) }
{
    match town_drill::drill(rt, alloc, n) {
        Ok(text) => put_text(text.as_str(), output),
        Err(LoadFault::Refused(line)) => end_refused(output, line),
        Err(LoadFault::Memory) => end_exhausted(output),
    }
}
