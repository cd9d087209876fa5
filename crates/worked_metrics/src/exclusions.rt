//! Metrics of a worked town for those who avoid a set of classes; the values are worked out by hand from this project's
//! rules.

ghost use Rattle.std.specs.Prelude.{◌<◌, length};

use crate::cells::{boxed_metric, boxed_roads, told};
use crate::remaking::boxed_remade;
use cost_texts::cost_told;
use customized::{Metric, Roads, Under};
use std::alloc::{AllocError, Global};
use std::process::Abort;
use std::thread::Threads;

// A street that goes north from node 1 to node 2, and a toll road east from there to node 3.
const TOLL: &str = "n1 x0 y0
n2 x0 y0.001
n3 x0.001 y0.001
w1 Thighway=residential Nn1,n2
w2 Thighway=residential,toll=yes Nn2,n3";

// One set may be avoided, that of the toll roads.
const SETTINGS: &str = "version = 2
name = \"car\"
vehicle = \"motorcar\"
u_turn_penalty = 200
excludable = [[\"toll\"]]
[speeds]
residential = 40
[classes]
toll = [\"toll=yes\"]
";

// What the vertices cost, what the turns do, and the cells with what walks cost inside them.
fn all_told(alloc: Global, under: &Under<'_>) -> Result<String, AllocError> {
    let mut text = String::new(alloc);
    let base = under.base();
    for v in 0..under.frame().graph().vertices() {
        text.push_str(cost_told(alloc, base.vertex(v))?.as_str())?;
    }
    text.push_str("| ")?;
    for i in 0..under.frame().graph().arcs() {
        text.push_str(cost_told(alloc, Some(base.turn(i)))?.as_str())?;
    }
    text.push_str("; ")?;
    text.push_str(told(alloc, under)?.as_str())?;
    Ok(text)
}

// Asserts what a metric is without exclusion, and what it is to those who avoid the only set.
fn assert_both(
    rt: &impl Abort,
    alloc: Global,
    metric: &Metric,
    plain: &str,
    avoiding: &str,
) -> Result<(), AllocError> {
    assert_eq!(rt; metric.network().profile().excludable().len(), 1);
    let got = all_told(alloc, &metric.under(None))?;
    assert_eq!(rt; got.as_str(), plain);
    let got = all_told(alloc, &metric.under(Some(0)))?;
    assert_eq!(rt; got.as_str(), avoiding);
    Ok(())
}

// The roads of the town, where each street is a cell.
fn roads(alloc: Global) -> Result<Box<Roads>, AllocError> {
    boxed_roads(alloc, TOLL, SETTINGS, &[2])
}

// The metric of the town by its settings alone.
fn metric(rt: &(impl Threads + Sync), alloc: Global) -> Result<Box<Metric>, AllocError> {
    let roads = roads(alloc)?;
    boxed_metric(rt, alloc, &roads)
}

const PLAIN: &str =
    "99/99/1111 99/99/1111 99/99/1111 99/99/1111 | 0/0/0 200/200/0 200/200/0 0/0/0 ; 0 0 1 1 | 1 to 0 299/299/1111 | 2 to 3 299/299/1111 ; ";

const AVOIDING: &str =
    "99/99/1111 99/99/1111 - - | 0/0/0 200/200/0 200/200/0 0/0/0 ; 0 0 1 1 | 1 to 0 299/299/1111 | 2 to 3 - ; ";

// Both directions of the toll road are closed to those who avoid it, and no walk leads through it; the turns onto it
// cost what they do.
#[test]
fn a_toll_road_is_closed_to_those_who_avoid_it(rt: HostRuntime) -> Result<(), AllocError> {
    let alloc = rt.alloc();
    let metric = metric(&rt, alloc)?;
    assert_both(&rt, alloc, &metric, PLAIN, AVOIDING)
}

// The metric of roads whose costs are those of who avoids the only set.
fn metric_of_avoiding(
    rt: &(impl Threads + Abort + Sync),
    alloc: Global,
    roads: &Roads,
) -> Result<Box<Metric>, AllocError> {
    assert_eq!(rt; roads.network().profile().excludable().len(), 1);
    let avoiding = roads.base().avoid(alloc, roads.network(), 0)?;
    let metric = Metric::make(rt, alloc, roads, avoiding)?;
    Ok(Box::new(alloc, metric)?)
}

// What is made of these costs alone is what stands in a metric for the set.
#[test]
fn a_set_has_the_cliques_of_its_own_costs(rt: HostRuntime) -> Result<(), AllocError> {
    let alloc = rt.alloc();
    let roads = roads(alloc)?;
    let metric = metric_of_avoiding(&rt, alloc, &roads)?;
    assert_both(&rt, alloc, &metric, AVOIDING, AVOIDING)
}

// Asserts what a speeds file makes of the town's metric.
fn assert_remade(
    rt: &(impl Threads + Abort + Sync),
    alloc: Global,
    speeds: &[u8],
    searches: u64,
    plain: &str,
    avoiding: &str,
) -> Result<(), AllocError> {
    let old = metric(rt, alloc)?;
    let remade = boxed_remade(rt, alloc, &old, speeds, b"")?;
    assert_eq!(rt; remade.searches, searches);
    assert_both(rt, alloc, &remade.metric, plain, avoiding)
}

// A slower street is one search without exclusion, and one for those who avoid the toll road. A slower toll road is one
// without exclusion alone.
#[test]
fn searches_are_counted_for_each_set(rt: HostRuntime) -> Result<(), AllocError> {
    let alloc = rt.alloc();
    let plain =
        "199/199/1111 99/99/1111 99/99/1111 99/99/1111 | 0/0/0 200/200/0 200/200/0 0/0/0 ; 0 0 1 1 | 1 to 0 399/399/1111 | 2 to 3 299/299/1111 ; ";
    let avoiding =
        "199/199/1111 99/99/1111 - - | 0/0/0 200/200/0 200/200/0 0/0/0 ; 0 0 1 1 | 1 to 0 399/399/1111 | 2 to 3 - ; ";
    assert_remade(&rt, alloc, b"1,2,20\n", 2, plain, avoiding)?;
    let plain =
        "99/99/1111 99/99/1111 99/99/1111 199/199/1111 | 0/0/0 200/200/0 200/200/0 0/0/0 ; 0 0 1 1 | 1 to 0 299/299/1111 | 2 to 3 399/399/1111 ; ";
    assert_remade(&rt, alloc, b"3,2,20\n", 1, plain, AVOIDING)
}
