//! Metrics while one request for memory is refused, which `bench/refused.py` does to each request of these tests in turn.
//! A call that wants memory is made once more, and then has its own outcome: what it was given is as before. Where
//! nothing is refused, as in the gate, each call has its own outcome at once. The values are worked out by hand from this
//! project's rules.

ghost use Rattle.std.specs.Prelude.{◌≤◌, All};
ghost use Rattle.std.specs.List.Sorted.{IsStrictlyIncreasing};

use crate::cells::{RING, boxed_metric, boxed_roads, told};
use crate::remaking::boxed_remade;
use cost_texts::cost_told;
use customized::{Metric, Remade, Roads};
use small_towns::{CAR, bend};
use std::alloc::{AllocError, Global};
use std::process::Abort;
use std::thread::Threads;

// What the vertices of a metric cost.
fn costs_told(alloc: Global, metric: &Metric) -> Result<String, AllocError> {
    let mut text = String::new(alloc);
    for v in 0..metric.frame().graph().vertices() {
        text.push_str(cost_told(alloc, metric.base(None).vertex(v))?.as_str())?;
    }
    Ok(text)
}

// What the vertices of a metric cost, and its cells with what walks cost inside them.
fn lists_told(alloc: Global, metric: &Metric) -> Result<String, AllocError> {
    let mut text = costs_told(alloc, metric)?;
    text.push_str("; ")?;
    text.push_str(told(alloc, &metric.under(None))?.as_str())?;
    Ok(text)
}

// The same, told once more where that wants memory.
fn lists_told_again(alloc: Global, metric: &Metric) -> Result<String, AllocError> {
    match lists_told(alloc, metric) {
        Ok(text) => Ok(text),
        Err(_) => lists_told(alloc, metric),
    }
}

// Asserts what the lists of a metric are.
fn assert_lists(
    rt: &impl Abort,
    alloc: Global,
    metric: &Metric,
    want: &str,
) -> Result<(), AllocError> {
    let got = lists_told_again(alloc, metric)?;
    assert_eq!(rt; got.as_str(), want);
    Ok(())
}

// The roads of a map, made once more where that wants memory.
fn roads_again(alloc: Global, map: &str, limits: &[u32]) -> Result<Box<Roads>, AllocError>
    requires ascending { IsStrictlyIncreasing limits.now }
    requires some { All (λ limit. 1 ≤ limit) limits.now }
{
    match boxed_roads(alloc, map, CAR, limits) {
        Ok(roads) => Ok(roads),
        Err(_) => boxed_roads(alloc, map, CAR, limits),
    }
}

// Their metric, made once more of the same roads where that wants memory.
fn metric_again(
    rt: &(impl Threads + Sync),
    alloc: Global,
    roads: &Roads,
) -> Result<Box<Metric>, AllocError> {
    match boxed_metric(rt, alloc, roads) {
        Ok(metric) => Ok(metric),
        Err(_) => boxed_metric(rt, alloc, roads),
    }
}

// The metric of a map, cut into cells by these limits.
fn made(
    rt: &(impl Threads + Sync),
    alloc: Global,
    map: &str,
    limits: &[u32],
) -> Result<Box<Metric>, AllocError>
    requires ascending { IsStrictlyIncreasing limits.now }
    requires some { All (λ limit. 1 ≤ limit) limits.now }
{
    let roads = roads_again(alloc, map, limits)?;
    metric_again(rt, alloc, &roads)
}

// A speeds file, how many searches it takes, and the lists before and after it.
#[derive(Clone, Copy)]
struct Change<'a> {
    speeds: &'a [u8],
    searches: u64,
    before: &'a str,
    after: &'a str,
}

// The metric that a speeds file makes of an old one. Where that wants memory, the old one is as before, and it is made
// once more.
fn remade_again(
    rt: &(impl Threads + Abort + Sync),
    alloc: Global,
    old: &Metric,
    change: Change<'_>,
) -> Result<Box<Remade>, AllocError> {
    match boxed_remade(rt, alloc, old, change.speeds, b"") {
        Ok(remade) => Ok(remade),
        Err(_) => {
            assert_lists(rt, alloc, old, change.before)?;
            boxed_remade(rt, alloc, old, change.speeds, b"")
        }
    }
}

// Asserts what a speeds file makes of an old metric, which stays as before.
fn assert_remade(
    rt: &(impl Threads + Abort + Sync),
    alloc: Global,
    old: &Metric,
    change: Change<'_>,
) -> Result<(), AllocError> {
    let remade = remade_again(rt, alloc, old, change)?;
    assert_eq!(rt; remade.searches, change.searches);
    assert_lists(rt, alloc, &remade.metric, change.after)?;
    assert_lists(rt, alloc, old, change.before)
}

// The bend, told once more where that wants memory.
fn bend_again(alloc: Global) -> Result<String, AllocError> {
    match bend(alloc, "") {
        Ok(map) => Ok(map),
        Err(_) => bend(alloc, ""),
    }
}

const BLOCK: &str =
    "99/99/1111 - 99/99/1111 - 99/99/1111 - 99/99/1111 - ; 2 3 6 7 4 5 0 1 | 6 to 6 0/0/0 | to | 0 to 0 0/0/0 | to | 4 to 4 0/0/0 | to | 2 to 2 0/0/0 | to ; 1 1 3 3 2 2 0 0 | 6 to 6 0/0/0 | 0 to 0 0/0/0 | 4 to 4 0/0/0 | 2 to 2 0/0/0 ; ";

const SLOWER_BLOCK: &str =
    "199/199/1111 - 99/99/1111 - 99/99/1111 - 99/99/1111 - ; 2 3 6 7 4 5 0 1 | 6 to 6 0/0/0 | to | 0 to 0 0/0/0 | to | 4 to 4 0/0/0 | to | 2 to 2 0/0/0 | to ; 1 1 3 3 2 2 0 0 | 6 to 6 0/0/0 | 0 to 0 0/0/0 | 4 to 4 0/0/0 | 2 to 2 0/0/0 ; ";

const BEND: &str =
    "99/99/1111 99/99/1111 99/99/1111 99/99/1111 ; 0 0 1 1 | 1 to 0 299/299/1111 | 2 to 3 299/299/1111 ; 0 0 0 0 | to ; ";

const SLOWER_BEND: &str =
    "199/199/1111 99/99/1111 99/99/1111 99/99/1111 ; 0 0 1 1 | 1 to 0 399/399/1111 | 2 to 3 299/299/1111 ; 0 0 0 0 | to ; ";

// As in `cells`: a block's segments are its cells.
#[test]
fn a_street_round_a_block_is_cut_by_its_segments_or_memory(
    rt: HostRuntime,
) -> Result<(), AllocError> {
    let alloc = rt.alloc();
    let metric = made(&rt, alloc, RING, &[1, 2])?;
    assert_lists(&rt, alloc, &metric, BLOCK)
}

// As in `cells`: a way into a street and out again turns back at its end.
#[test]
fn a_way_into_a_street_turns_back_at_its_end_or_memory(rt: HostRuntime) -> Result<(), AllocError> {
    let alloc = rt.alloc();
    let map = bend_again(alloc)?;
    let metric = made(&rt, alloc, map.as_str(), &[2, 4])?;
    assert_lists(&rt, alloc, &metric, BEND)
}

// As in `remaking`: a slower way touches its street and what holds that street, but this is entered nowhere.
#[test]
fn a_slower_way_is_one_search_or_memory(rt: HostRuntime) -> Result<(), AllocError> {
    let alloc = rt.alloc();
    let map = bend_again(alloc)?;
    let old = made(&rt, alloc, map.as_str(), &[2, 4])?;
    let change = Change {
        speeds: b"1,2,20\n",
        searches: 1,
        before: BEND,
        after: SLOWER_BEND,
    };
    assert_remade(&rt, alloc, &old, change)
}

// A slower segment of the block is a cell of level 1, and lies in one of level 2; each is entered by it alone.
#[test]
fn a_slower_segment_is_two_searches_or_memory(rt: HostRuntime) -> Result<(), AllocError> {
    let alloc = rt.alloc();
    let old = made(&rt, alloc, RING, &[1, 2])?;
    let change = Change {
        speeds: b"1,2,20\n",
        searches: 2,
        before: BLOCK,
        after: SLOWER_BLOCK,
    };
    assert_remade(&rt, alloc, &old, change)
}
