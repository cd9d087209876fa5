//! The metric of worked networks; the values are worked out by hand from this project's rules.

ghost use Rattle.std.specs.Prelude.{◌≡◌, length};
ghost use Rattle.edge_graph.specs.NetworkView.{graph_of};

use crate::cells::boxed_roads;
use control_port::base_of_files;
use cost_texts::cost_told;
use edge_graph::Network;
use metric_make::{BaseMetric, base};
use small_towns::{bend, crossing, network_of};
use std::alloc::{AllocError, Global};
use std::process::Abort;

const CAR: &str =
    "name = \"car\"\nvehicle = \"motorcar\"\nu_turn_penalty = 200\n[speeds]\nresidential = 40\n";

const WITH_PENALTIES: &str =
    "name = \"car\"\nvehicle = \"motorcar\"\nu_turn_penalty = 200\nsignal_penalty = 30\n[speeds]\nresidential = 40\n[turn_penalty]\nleft = 50\nright = 7\n";

// A one-way street from node 1 to node 2, and a street from node 2 to node 3. The second is so short that
// its length and its duration are the least.
const STREETS: &str = "n1 x0 y0
n2 x0 y0.001
n3 x0 y0.001
w1 Thighway=residential,oneway=yes Nn1,n2
w2 Thighway=residential Nn2,n3";

// What a metric's vertices and turns cost.
fn told(alloc: Global, network: &Network, metric: &BaseMetric) -> Result<String, AllocError>
    requires vertices { length metric.now.weights.vertex ≡ (graph_of network.now).vertices }
    requires arcs { length metric.now.weights.arc ≡ length (graph_of network.now).arcs }
{
    let mut text = String::new(alloc);
    for v in 0..2 * network.segments() {
        let cost = metric.vertex(v);
        text.push_str(cost_told(alloc, cost)?.as_str())?;
    }
    text.push_str("| ")?;
    for i in 0..network.turns() {
        let cost = metric.turn(i);
        text.push_str(cost_told(alloc, Some(cost))?.as_str())?;
    }
    Ok(text)
}

// What the vertices and turns of a network cost by its settings.
fn network_told(alloc: Global, network: &Network) -> Result<String, AllocError> {
    let metric = base(alloc, network)?;
    told(alloc, network, &metric)
}

// Asserts what the vertices and turns of a map cost by these settings: its ways, and then its turns.
fn assert_costs(
    rt: &impl Abort,
    alloc: Global,
    map: &str,
    settings: &str,
    want: &str,
) -> Result<(), AllocError> {
    let Ok(network) = network_of(alloc, map, settings) else {
        return Err(AllocError);
    };
    let got = network_told(alloc, &network)?;
    assert_eq!(rt; got.as_str(), want);
    Ok(())
}

// 1111 decimetres at 40 km/h are 99.99 deciseconds. The turns are 0-2, 2-3 and 3-2; the latter two turn
// back at the ends.
#[test]
fn vertices_and_turns_have_their_costs(rt: HostRuntime) -> Result<(), AllocError> {
    let want = "99/99/1111 - 1/1/1 1/1/1 | 0/0/0 200/200/0 200/200/0 ";
    assert_costs(&rt, rt.alloc(), STREETS, CAR, want)
}

// Asserts what the turns of the crossing cost, where its middle has these tags. Each way costs the same.
fn assert_at_crossing(
    rt: &impl Abort,
    alloc: Global,
    at_middle: &str,
    turns: &str,
) -> Result<(), AllocError> {
    let map = crossing(alloc, at_middle, "")?;
    let ways =
        "99/99/1111 99/99/1111 99/99/1111 99/99/1111 99/99/1111 99/99/1111 99/99/1111 99/99/1111 | ";
    let want = format!(in alloc; "{ways}{turns}")?;
    assert_costs(rt, alloc, map.as_str(), WITH_PENALTIES, want.as_str())
}

// At the crossing the turns from the south go right, straight on and left; then back at the end of way 1,
// and so on. A signal adds its penalty to the turns at its node, that back at node 4 too. Where a street
// only bends, no bend costs anything.
#[test]
fn bends_and_signals_have_their_penalties(rt: HostRuntime) -> Result<(), AllocError> {
    let alloc = rt.alloc();
    let plain =
        "7/7/0 0/0/0 50/50/0 200/200/0 200/200/0 50/50/0 7/7/0 0/0/0 200/200/0 0/0/0 50/50/0 7/7/0 7/7/0 0/0/0 50/50/0 230/230/0 ";
    assert_at_crossing(&rt, alloc, "", plain)?;
    let signalled =
        "37/37/0 30/30/0 80/80/0 200/200/0 200/200/0 80/80/0 37/37/0 30/30/0 200/200/0 30/30/0 80/80/0 37/37/0 37/37/0 30/30/0 80/80/0 230/230/0 ";
    assert_at_crossing(&rt, alloc, "highway=traffic_signals", signalled)?;
    let bent = "99/99/1111 99/99/1111 99/99/1111 99/99/1111 | 0/0/0 200/200/0 200/200/0 0/0/0 ";
    let map = bend(alloc, "")?;
    assert_costs(&rt, alloc, map.as_str(), WITH_PENALTIES, bent)
}

const BY_DISTANCE: &str =
    "name = \"car\"\nvehicle = \"motorcar\"\nweight_name = \"distance\"\nu_turn_penalty = 200\n[speeds]\nresidential = 40\n";

// Asserts what the bend's vertices and turns cost under the rows of a speeds file and of a turns file.
fn assert_under_rows(
    rt: &impl Abort,
    alloc: Global,
    settings: &str,
    (speeds, turns): (&str, &str),
    want: &str,
) -> Result<(), AllocError> {
    let map = bend(alloc, "")?;
    let roads = boxed_roads(alloc, map.as_str(), settings, &[2])?;
    let Ok(metric) = base_of_files(alloc, &roads, speeds.as_bytes(), turns.as_bytes()) else {
        return Err(AllocError);
    };
    let got = told(alloc, roads.network(), &metric)?;
    assert_eq!(rt; got.as_str(), want);
    Ok(())
}

// 1111 decimetres at 2 metres a unit weigh 555.5, at a quarter of a metre as much as at 0.278; a rate opens nothing that a
// speed of 0 closes.
const RATES: &str = "1,2,40,2\n2,1,20,0.25\n2,3,0,1\n3,2,40,2\n3,2,40\n";

// A row with a weight of its own, one without.
const TURN_WEIGHTS: &str = "1,2,3,5,1.59\n3,2,1,7\n3,2,3,5,0\n2,3,2,6,-1\n";

#[test]
fn rows_have_rates_and_weights(rt: HostRuntime) -> Result<(), AllocError> {
    let want = "555/99/1111 3996/199/1111 - 99/99/1111 | 15/50/0 200/200/0 0/60/0 70/70/0 ";
    assert_under_rows(&rt, rt.alloc(), CAR, (RATES, TURN_WEIGHTS), want)
}

#[test]
fn a_way_weighs_what_it_is_long_where_the_settings_say_so(
    rt: HostRuntime,
) -> Result<(), AllocError> {
    let ways = "1111/99/1111 1111/99/1111 1111/99/1111 1111/99/1111 | 0/0/0 0/200/0 0/200/0 0/0/0 ";
    assert_under_rows(&rt, rt.alloc(), BY_DISTANCE, ("", ""), ways)?;
    let rows = "555/99/1111 3996/199/1111 - 1111/99/1111 | 15/50/0 0/200/0 0/60/0 0/70/0 ";
    assert_under_rows(&rt, rt.alloc(), BY_DISTANCE, (RATES, TURN_WEIGHTS), rows)
}
