//! Metrics of worked towns that are made from others; the values are worked out by hand from this project's rules.

ghost use Rattle.std.specs.Prelude.{◌≤◌, All};
ghost use Rattle.std.specs.List.Sorted.{IsStrictlyIncreasing};

use crate::cells::{assert_told, customized};
use control_port::base_of_files;
use customized::{Metric, Remade};
use small_towns::bend;
use std::alloc::{AllocError, Global};
use std::thread::Threads;

/// The metric that is made from an old one by two traffic files, in a box.
pub fn boxed_remade(
    rt: &(impl Threads + Sync),
    alloc: Global,
    old: &Metric,
    speeds: &[u8],
    turns: &[u8],
) -> Result<Box<Remade>, AllocError> {
    let Ok(base) = base_of_files(alloc, old.roads(), speeds, turns) else {
        return Err(AllocError);
    };
    let remade = Metric::remake(rt, alloc, old, base)?;
    Ok(Box::new(alloc, remade)?)
}

// The metric of two streets that meet at a bend, each a cell of level 1, made from that of the settings alone by two
// traffic files.
fn remade(
    rt: &(impl Threads + Sync),
    alloc: Global,
    limits: &[u32],
    speeds: &[u8],
    turns: &[u8],
) -> Result<Box<Remade>, AllocError>
    requires ascending { IsStrictlyIncreasing limits.now }
    requires some { All (λ limit. 1 ≤ limit) limits.now }
{
    let map = bend(alloc, "")?;
    let old = customized(rt, alloc, map.as_str(), limits)?;
    boxed_remade(rt, alloc, &old, speeds, turns)
}

// A slower way touches its street and what holds that street, but this is entered nowhere.
#[test]
fn a_slower_way_is_one_search(rt: HostRuntime) -> Result<(), AllocError> {
    let alloc = rt.alloc();
    let remade = remade(&rt, alloc, &[2, 4], b"1,2,20\n", b"")?;
    assert_eq!(rt; remade.searches, 1);
    let want = "0 0 1 1 | 1 to 0 399/399/1111 | 2 to 3 299/299/1111 ; 0 0 0 0 | to ; ";
    assert_told(&rt, alloc, &remade.metric, want)
}

// A dearer turn from one street into the other touches neither of them, but what holds both.
#[test]
fn a_dearer_turn_at_the_bend_is_no_search(rt: HostRuntime) -> Result<(), AllocError> {
    let alloc = rt.alloc();
    let remade = remade(&rt, alloc, &[2, 4], b"", b"1,2,3,10\n")?;
    assert_eq!(rt; remade.searches, 0);
    assert_eq!(rt; remade.metric.base(None).unmatched(), 0);
    let want = "0 0 1 1 | 1 to 0 299/299/1111 | 2 to 3 299/299/1111 ; 0 0 0 0 | to ; ";
    assert_told(&rt, alloc, &remade.metric, want)
}

// A dearer turn back within a street, where each way is a cell of its own, touches the street alone: a cell of level 2.
#[test]
fn a_dearer_turn_back_touches_its_street(rt: HostRuntime) -> Result<(), AllocError> {
    let alloc = rt.alloc();
    let remade = remade(&rt, alloc, &[1, 2, 4], b"", b"2,1,2,500\n")?;
    assert_eq!(rt; remade.searches, 1);
    Ok(())
}
