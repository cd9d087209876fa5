//! Metrics of one worked town under traffic rows, made one after another; the values are worked out by hand from this
//! project's rules.

ghost use Rattle.std.specs.Prelude.{◌≡◌, length};
ghost use Rattle.edge_graph.specs.NetworkView.{graph_of};

use crate::cells::{boxed_metric, boxed_roads};
use crate::remaking::boxed_remade;
use control_port::base_of_files;
use cost_texts::cost_told;
use customized::{Metric, Roads};
use metric_make::BaseMetric;
use search_graph::Graph;
use std::alloc::{AllocError, Global};
use std::process::Abort;

// Way 1 goes east from node 1 to 2, way 2 on to 3, way 3 on to 4, and way 4 north from 3 to 5. Who comes along way 1 may not
// go over way 2 into way 3, so vertex 8 is a copy of vertex 2.
const TOWN: &str = "n1 x0 y0
n2 x0.001 y0
n3 x0.002 y0
n4 x0.003 y0
n5 x0.002 y0.001
w1 Thighway=residential Nn1,n2
w2 Thighway=residential Nn2,n3
w3 Thighway=residential Nn3,n4
w4 Thighway=residential Nn3,n5
r1 Ttype=restriction,restriction=no_straight_on Mw1@from,w2@via,w3@to";

const SETTINGS: &str =
    "name = \"car\"\nvehicle = \"motorcar\"\nu_turn_penalty = 200\n[speeds]\nresidential = 40\n[turn_penalty]\nleft = 50\nright = 7\n";

// What the vertices of the town cost and what the arcs do, of which vertex 2 and its copy cost so much, and so much the turn
// from there to the left into way 4 and the arc out of the copy that stands for it.
fn costs(alloc: Global, second: &str, left: &str) -> Result<String, AllocError> {
    format!(in alloc;
        "99/99/1111 99/99/1111 {second} 99/99/1111 99/99/1111 99/99/1111 99/99/1111 99/99/1111 {second} | 0/0/0 200/200/0 0/0/0 {left} 0/0/0 200/200/0 0/0/0 7/7/0 200/200/0 7/7/0 50/50/0 {left} "
    )
}

// What all vertices and arcs of the searched graph cost.
fn told(alloc: Global, graph: &Graph, metric: &BaseMetric) -> Result<String, AllocError>
    requires vertices { length metric.now.weights.vertex ≡ graph.now.vertices }
    requires arcs { length metric.now.weights.arc ≡ length graph.now.arcs }
{
    let mut text = String::new(alloc);
    for v in 0..graph.vertices() {
        text.push_str(cost_told(alloc, metric.vertex(v))?.as_str())?;
    }
    text.push_str("| ")?;
    for i in 0..graph.arcs() {
        text.push_str(cost_told(alloc, Some(metric.turn(i)))?.as_str())?;
    }
    Ok(text)
}

// What vertex 2 and the turn to the left cost.
#[derive(Clone, Copy)]
struct Want<'a> {
    second: &'a str,
    left: &'a str,
}

// What they cost without a row.
const BY_SETTINGS: Want<'static> = Want {
    second: "99/99/1111",
    left: "50/50/0",
};

// Asserts what all costs are.
fn assert_costs(
    rt: &impl Abort,
    alloc: Global,
    graph: &Graph,
    metric: &BaseMetric,
    want: Want<'_>,
) -> Result<(), AllocError>
    requires vertices { length metric.now.weights.vertex ≡ graph.now.vertices }
    requires arcs { length metric.now.weights.arc ≡ length graph.now.arcs }
{
    let got = told(alloc, graph, metric)?;
    let want = costs(alloc, want.second, want.left)?;
    assert_eq!(rt; got.as_str(), want.as_str());
    assert_eq!(rt; metric.unmatched(), 0);
    Ok(())
}

// Asserts what all costs under the rows of a speeds file and of a turns file are.
fn assert_under(
    rt: &impl Abort,
    alloc: Global,
    roads: &Roads,
    (speeds, turns): (&str, &str),
    want: Want<'_>,
) -> Result<(), AllocError> {
    let Ok(metric) = base_of_files(alloc, roads, speeds.as_bytes(), turns.as_bytes()) else {
        return Err(AllocError);
    };
    assert_costs(rt, alloc, roads.network().graph(), &metric, want)
}

// Asserts what all costs by the settings alone are, which the roads keep.
fn assert_kept(rt: &impl Abort, alloc: Global, roads: &Roads) -> Result<(), AllocError> {
    assert_costs(
        rt,
        alloc,
        roads.network().graph(),
        roads.base(),
        BY_SETTINGS,
    )
}

// Rows of a speeds file and of a turns file, and what vertex 2 and the turn to the left cost under them; without any row
// after all others.
const CASES: &str = "\
2,3,20||199/199/1111|50/50/0
2,3,0||-|50/50/0
2,3,40,2||555/99/1111|50/50/0
|2,3,5,10|99/99/1111|100/100/0
|2,3,5,5,1.59|99/99/1111|15/50/0
2,3,0,2|2,3,5,10,0|-|0/100/0
||99/99/1111|50/50/0";

fn assert_case(
    rt: &impl Abort,
    alloc: Global,
    roads: &Roads,
    case: &str,
) -> Result<(), AllocError> {
    let mut parts = case.split('|');
    match (parts.next(), parts.next(), parts.next(), parts.next()) {
        (Some(speeds), Some(turns), Some(second), Some(left)) => {
            assert_under(rt, alloc, roads, (speeds, turns), Want { second, left })
        }
        _ => panic!(rt; "a case of four"),
    }
}

// A row changes what it is for, with the copy or the arc that stands for that, and all else costs what it does by the
// settings alone. What the roads keep stays as it is.
#[test]
fn rows_change_what_they_are_for_and_nothing_else(rt: HostRuntime) -> Result<(), AllocError> {
    let alloc = rt.alloc();
    let roads = boxed_roads(alloc, TOWN, SETTINGS, &[2])?;
    assert_kept(&rt, alloc, &roads)?;
    for case in CASES.split('\n') {
        assert_case(&rt, alloc, &roads, case)?;
    }
    assert_kept(&rt, alloc, &roads)
}

// Asserts what all costs of a metric with its cells are.
fn assert_metric(
    rt: &impl Abort,
    alloc: Global,
    metric: &Metric,
    want: Want<'_>,
) -> Result<(), AllocError> {
    assert_costs(rt, alloc, metric.network().graph(), metric.base(None), want)
}

// A metric that is made without rows from one under rows costs what the first one did.
#[test]
fn without_rows_all_costs_are_those_of_the_settings_again(
    rt: HostRuntime,
) -> Result<(), AllocError> {
    let alloc = rt.alloc();
    let roads = boxed_roads(alloc, TOWN, SETTINGS, &[2])?;
    let first = boxed_metric(&rt, alloc, &roads)?;
    assert_metric(&rt, alloc, &first, BY_SETTINGS)?;
    let under = boxed_remade(&rt, alloc, &first, b"2,3,0\n", b"2,3,5,10\n")?;
    let want = Want {
        second: "-",
        left: "100/100/0",
    };
    assert_metric(&rt, alloc, &under.metric, want)?;
    let without = boxed_remade(&rt, alloc, &under.metric, b"", b"")?;
    assert_metric(&rt, alloc, &without.metric, BY_SETTINGS)
}
