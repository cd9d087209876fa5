//! Cheapest walks in a plain graph.

use small_graphs::{SMALL, WEIGHED, graph, plain_told, weights};
use std::test::Fail;

#[test]
fn cheapest_walks_in_a_small_graph(rt: HostRuntime) -> Result<(), Fail> {
    let alloc = rt.alloc();
    let graph = graph(alloc, &SMALL)?;
    let weights = weights(alloc, &graph, &SMALL)?;
    let (from, to) = ("0:8/0 5:30/0 3:0/0", "4:2/2 0:3/3 2:1/0 3:0/0 6:0/0 5:0/0");
    let told = plain_told(alloc, &graph, &weights, from, to)?;
    let want = "32/32/11 5 4 | 48/48/90 0 1 2 0 | 20/20/52 0 1 2 | - | - | - | ";
    assert_eq!(rt; told.as_str(), want);
    let told = plain_told(alloc, &graph, &weights, "0:8/0", "4:2/2")?;
    assert_eq!(rt; told.as_str(), "44/44/86 0 1 2 4 | ");
    Ok(())
}

#[test]
fn less_weight_is_cheaper_though_it_lasts_longer(rt: HostRuntime) -> Result<(), Fail> {
    let alloc = rt.alloc();
    let graph = graph(alloc, &WEIGHED)?;
    let weights = weights(alloc, &graph, &WEIGHED)?;
    let told = plain_told(alloc, &graph, &weights, "0:10/100", "3:0/0")?;
    assert_eq!(rt; told.as_str(), "11/209/1211 0 2 3 | ");
    Ok(())
}
