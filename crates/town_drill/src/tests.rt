//! Small towns: what their drills tell.

ghost use Rattle.std.specs.Prelude.{◌≤◌};

use crate::drill;
use std::alloc::{AllocError, Global};
use std::thread::Threads;

const DRILL_2: &str = "metric 0 ok 16 none 0 duration 106.4
metric 1 ok 16 none 0 duration 106.4
metric 2 ok 16 none 0 duration 106.4
metric 3 ok 16 none 0 duration 106.4
";

// What another program finds, which searches all turns for each trip.
const DRILL_20: &str = "metric 0 ok 16 none 0 duration 1827.7
metric 1 ok 16 none 0 duration 2131.2
metric 2 ok 16 none 0 duration 2166.0
metric 3 ok 16 none 0 duration 2005.7
";

// The lines of a drill that isn't refused.
fn lines_of(rt: &(impl Threads + Sync), alloc: Global, n: u32) -> Result<String, AllocError>
    requires some { 2 ≤ n }
    requires few { n ≤ 1000 }
{
    match drill(rt, alloc, n) {
        Ok(text) => Ok(text),
        Err(_) => Err(AllocError),
    }
}

#[test]
fn the_least_town(rt: HostRuntime) -> Result<(), AllocError> {
    assert_eq!(rt; lines_of(&rt, rt.alloc(), 2)?.as_str(), DRILL_2);
    Ok(())
}

#[test]
fn a_drill_is_the_same_each_time(rt: HostRuntime) -> Result<(), AllocError> {
    for _ in 0..2 {
        assert_eq!(rt; lines_of(&rt, rt.alloc(), 20)?.as_str(), DRILL_20);
    }
    Ok(())
}
