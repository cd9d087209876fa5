//! Packed walks, by the cliques of a frame.

ghost use Rattle.std.specs.Prelude.{◌≡◌, length};
ghost use Rattle.search_graph.specs.RoadCosts.{road_cost_ops};
ghost use Rattle.search_graph.specs.Weighted.{AreSmall};
ghost use Rattle.cell_frame.specs.Cliqued.{AreExact};

use cost_texts::{cost_told, costs_told};
use overlay_query::{Hop, PackedFound, cheapest, least, least_costs};
use plain_search::SearchFault;
use search_graph::WeightDurLen;
use small_graphs::{Overlay, RING_OF_EIGHT, STREETS, cut, starts, targets};
use std::alloc::{AllocError, Global};
use std::test::Fail;
use step_search::Search;

// The vertex to which a hop leads, with the level and the number of its cell where it is a shortcut.
fn hop_told(alloc: Global, hop: &Hop) -> Result<String, AllocError> {
    match hop.by {
        Some(cell) => format!(in alloc; "{}[{}.{}] ", hop.to, cell.level, cell.number),
        None => format!(in alloc; "{} ", hop.to),
    }
}

/// The cost of a packed walk, its first vertex and its hops.
pub fn walk_told(alloc: Global, found: &PackedFound<WeightDurLen>) -> Result<String, AllocError> {
    let mut text = cost_told(alloc, Some(found.cost))?;
    text.push_str(format!(in alloc; "{} ", found.packed.first)?.as_str())?;
    for hop in found.packed.hops.as_slice() {
        text.push_str(hop_told(alloc, hop)?.as_str())?;
    }
    Ok(text)
}

// The same; `-` for none.
fn packed_told(
    alloc: Global,
    found: &Option<PackedFound<WeightDurLen>>,
) -> Result<String, AllocError> {
    match found {
        Some(found) => walk_told(alloc, found),
        None => String::from_str(alloc, "- "),
    }
}

// Packed walks, each with a bar behind it.
fn all_told(
    alloc: Global,
    all: &[Option<PackedFound<WeightDurLen>>],
) -> Result<String, AllocError> {
    let mut text = String::new(alloc);
    for found in all {
        text.push_str(packed_told(alloc, found)?.as_str())?;
        text.push_str("| ")?;
    }
    Ok(text)
}

// A cheapest packed walk to each target.
fn least_told(alloc: Global, overlay: &Overlay, from: &str, to: &str) -> Result<String, SearchFault>
    requires small { AreSmall road_cost_ops overlay.now.frame.value.graph overlay.now.weights.value }
    requires exact { AreExact road_cost_ops overlay.now.frame.value overlay.now.weights.value overlay.now.cliques.value (length overlay.now.frame.value.cells.levels) }
{
    let vertices = overlay.frame.graph().vertices();
    let starts = starts(alloc, vertices, from)?;
    let targets = targets(alloc, vertices, to)?;
    let found = least(
        alloc,
        &overlay.frame,
        &overlay.weights,
        &overlay.cliques,
        &starts,
        &targets,
    )?;
    Ok(all_told(alloc, found.as_slice())?)
}

// The cheapest packed walk to one of the targets.
fn cheapest_told(
    alloc: Global,
    overlay: &Overlay,
    from: &str,
    to: &str,
) -> Result<String, SearchFault>
    requires small { AreSmall road_cost_ops overlay.now.frame.value.graph overlay.now.weights.value }
    requires exact { AreExact road_cost_ops overlay.now.frame.value overlay.now.weights.value overlay.now.cliques.value (length overlay.now.frame.value.cells.levels) }
{
    let vertices = overlay.frame.graph().vertices();
    let starts = starts(alloc, vertices, from)?;
    let targets = targets(alloc, vertices, to)?;
    let mut search = Box::new(alloc, Search::new(alloc))?;
    let found = cheapest(
        alloc,
        &overlay.frame,
        &overlay.weights,
        &overlay.cliques,
        &starts,
        &targets,
        &mut search,
    )?;
    Ok(packed_told(alloc, &found)?)
}

/// What a walk to each target costs.
pub fn least_costs_told(
    alloc: Global,
    overlay: &Overlay,
    from: &str,
    to: &str,
) -> Result<String, SearchFault>
    requires small { AreSmall road_cost_ops overlay.now.frame.value.graph overlay.now.weights.value }
    requires exact { AreExact road_cost_ops overlay.now.frame.value overlay.now.weights.value overlay.now.cliques.value (length overlay.now.frame.value.cells.levels) }
{
    let vertices = overlay.frame.graph().vertices();
    let starts = starts(alloc, vertices, from)?;
    let targets = targets(alloc, vertices, to)?;
    let mut search = Box::new(alloc, Search::new(alloc))?;
    let costs = least_costs(
        alloc,
        &overlay.frame,
        &overlay.weights,
        &overlay.cliques,
        &starts,
        &targets,
        &mut search,
    )?;
    Ok(costs_told(alloc, &costs)?)
}

// The cheapest packed walk to one of the targets, and what a walk to each costs.
fn cheapest_of_told(
    alloc: Global,
    overlay: &Overlay,
    from: &str,
    to: &str,
) -> Result<String, SearchFault>
    requires small { AreSmall road_cost_ops overlay.now.frame.value.graph overlay.now.weights.value }
    requires exact { AreExact road_cost_ops overlay.now.frame.value overlay.now.weights.value overlay.now.cliques.value (length overlay.now.frame.value.cells.levels) }
{
    let packed = cheapest_told(alloc, overlay, from, to)?;
    let costs = least_costs_told(alloc, overlay, from, to)?;
    Ok(format!(in alloc; "{packed}of {costs}")?)
}

#[test]
fn a_walk_leaps_over_the_street_without_a_terminal(rt: HostRuntime) -> Result<(), Fail> {
    let streets = cut(rt.alloc(), &STREETS, &[2])?;
    let told = least_told(rt.alloc(), &streets, "3:49/555", "2:50/556 3:50/556")?;
    let want = "497/497/3333 3 1 0[1.0] 2 | 796/796/4444 3 1 0[1.0] 2 3 | ";
    assert_eq!(rt; told.as_str(), want);
    Ok(())
}

#[test]
fn a_walk_has_a_shortcut_of_each_level(rt: HostRuntime) -> Result<(), Fail> {
    let ring = cut(rt.alloc(), &RING_OF_EIGHT, &[2, 4])?;
    let told = least_told(rt.alloc(), &ring, "1:5/0", "0:2/2")?;
    assert_eq!(rt; told.as_str(), "91/91/13 1 2 3[1.1] 4 7[2.1] 0 | ");
    Ok(())
}

#[test]
fn the_second_of_two_targets_is_the_cheapest(rt: HostRuntime) -> Result<(), Fail> {
    let streets = cut(rt.alloc(), &STREETS, &[2])?;
    let told = cheapest_of_told(rt.alloc(), &streets, "3:49/555", "3:50/556 2:50/556")?;
    let want = "497/497/3333 3 1 0[1.0] 2 of 796/796/4444 497/497/3333 ";
    assert_eq!(rt; told.as_str(), want);
    Ok(())
}

#[test]
fn no_walk_leads_to_a_closed_vertex(rt: HostRuntime) -> Result<(), Fail> {
    let ring = cut(rt.alloc(), &RING_OF_EIGHT, &[2, 4])?;
    let none = cheapest_of_told(rt.alloc(), &ring, "1:5/0", "6:2/2")?;
    assert_eq!(rt; none.as_str(), "- of - ");
    let one = cheapest_of_told(rt.alloc(), &ring, "1:5/0", "6:2/2 0:2/2 6:2/2")?;
    assert_eq!(rt; one.as_str(), "91/91/13 1 2 3[1.1] 4 7 0 of - 91/91/13 - ");
    Ok(())
}
