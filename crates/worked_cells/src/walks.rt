//! Walks along arcs, by the cliques of a frame, beside those of plain search.

ghost use Rattle.std.specs.Prelude.{◌≡◌, ◌≤◌, All, length};
ghost use Rattle.std.specs.List.Sorted.{IsStrictlyIncreasing};
ghost use Rattle.search_graph.specs.RoadCosts.{road_cost_ops};
ghost use Rattle.search_graph.specs.Weighted.{AreSmall, IsWeighting};
ghost use Rattle.cell_frame.specs.Cliqued.{AreExact};
ghost use Rattle.path_unpack.specs.Unpacked.{IsPackedWalk};

use crate::queries::{least_costs_told, walk_told};
use cost_texts::{cost_told, vertices_told};
use overlay_query::{PackedFound, cheapest};
use path_unpack::{cheapest_from, least_from, unpack};
use plain_search::{Found, SearchFault};
use search_graph::WeightDurLen;
use search_pool::SearchPool;
use small_graphs::{
    Drawing, Overlay, RING_OF_EIGHT, RING_OF_TEN, SMALL, WEIGHED, WEIGHED_RING, cut, plain_told,
    starts, targets, walks_told,
};
use std::alloc::{AllocError, Global};
use std::process::Abort;
use std::test::Fail;
use step_search::Search;

// A packed walk, and the walk that it is opened to.
fn opened_told(
    alloc: Global,
    overlay: &Overlay,
    found: &PackedFound<WeightDurLen>,
    search: &mut Search<WeightDurLen>,
) -> Result<String, SearchFault>
    requires small { AreSmall road_cost_ops overlay.now.frame.value.graph overlay.now.weights.value }
    requires exact { AreExact road_cost_ops overlay.now.frame.value overlay.now.weights.value overlay.now.cliques.value (length overlay.now.frame.value.cells.levels) }
    requires packed { IsPackedWalk road_cost_ops overlay.now.frame.value overlay.now.weights.value found.now.packed.first found.now.packed.hops }
{
    let walk = unpack(
        alloc,
        &overlay.frame,
        &overlay.weights,
        &overlay.cliques,
        &found.packed,
        search,
    )?;
    let opened = vertices_told(alloc, &walk)?;
    let packed = walk_told(alloc, found)?;
    Ok(format!(in alloc; "{packed}is {opened}")?)
}

// The packed walk to one target, and the walk that it is opened to, apart from the query.
fn unpacked_told(
    alloc: Global,
    overlay: &Overlay,
    from: &str,
    to: &str,
) -> Result<String, SearchFault>
    requires small { AreSmall road_cost_ops overlay.now.frame.value.graph overlay.now.weights.value }
    requires exact { AreExact road_cost_ops overlay.now.frame.value overlay.now.weights.value overlay.now.cliques.value (length overlay.now.frame.value.cells.levels) }
{
    let vertices = overlay.frame.graph().vertices();
    let starts = starts(alloc, vertices, from)?;
    let targets = targets(alloc, vertices, to)?;
    let mut search = Box::new(alloc, Search::new(alloc))?;
    let found = cheapest(
        alloc,
        &overlay.frame,
        &overlay.weights,
        &overlay.cliques,
        &starts,
        &targets,
        &mut search,
    )?;
    match &found {
        Some(found) => opened_told(alloc, overlay, found, &mut search),
        None => Ok(String::from_str(alloc, "- ")?),
    }
}

// What a walk costs, and the walk; `-` for none.
fn found_told(alloc: Global, found: &Option<Found<WeightDurLen>>) -> Result<String, AllocError> {
    let Some(found) = found else {
        return String::from_str(alloc, "- ");
    };
    let mut text = cost_told(alloc, Some(found.cost))?;
    text.push_str(vertices_told(alloc, found.walk.as_slice())?.as_str())?;
    Ok(text)
}

// What the cheapest walk to one of the targets costs, and the walk.
fn cheapest_told(
    alloc: Global,
    overlay: &Overlay,
    from: &str,
    to: &str,
) -> Result<String, SearchFault>
    requires small { AreSmall road_cost_ops overlay.now.frame.value.graph overlay.now.weights.value }
    requires exact { AreExact road_cost_ops overlay.now.frame.value overlay.now.weights.value overlay.now.cliques.value (length overlay.now.frame.value.cells.levels) }
{
    let mut search = Box::new(alloc, Search::new(alloc))?;
    cheapest_told_by(alloc, overlay, &mut search, from, to)
}

// The same in the memory of a search.
fn cheapest_told_by(
    alloc: Global,
    overlay: &Overlay,
    search: &mut Search<WeightDurLen>,
    from: &str,
    to: &str,
) -> Result<String, SearchFault>
    requires small { AreSmall road_cost_ops overlay.now.frame.value.graph overlay.now.weights.value }
    requires exact { AreExact road_cost_ops overlay.now.frame.value overlay.now.weights.value overlay.now.cliques.value (length overlay.now.frame.value.cells.levels) }
{
    let vertices = overlay.frame.graph().vertices();
    let starts = starts(alloc, vertices, from)?;
    let targets = targets(alloc, vertices, to)?;
    let found = cheapest_from(
        alloc,
        &overlay.frame,
        &overlay.weights,
        &overlay.cliques,
        &starts,
        &targets,
        search,
    )?;
    Ok(found_told(alloc, &found)?)
}

// The same in the memory of a search of the pool, to which it is given back.
fn cheapest_told_in(
    alloc: Global,
    overlay: &Overlay,
    pool: &SearchPool<WeightDurLen>,
    from: &str,
    to: &str,
) -> Result<String, SearchFault>
    requires small { AreSmall road_cost_ops overlay.now.frame.value.graph overlay.now.weights.value }
    requires exact { AreExact road_cost_ops overlay.now.frame.value overlay.now.weights.value overlay.now.cliques.value (length overlay.now.frame.value.cells.levels) }
{
    let mut search = pool.take(alloc);
    let told = cheapest_told_by(alloc, overlay, &mut search, from, to);
    pool.give(search);
    told
}

#[test]
fn shortcuts_of_both_levels_are_opened(rt: HostRuntime) -> Result<(), Fail> {
    let ring = cut(rt.alloc(), &RING_OF_TEN, &[3, 5])?;
    let told = unpacked_told(rt.alloc(), &ring, "4:5/0", "3:2/2")?;
    assert_eq!(rt;
        told.as_str(),
        "91/91/12 4 5 9[2.1] 0 2[1.0] 3 is 4 5 6 7 9 0 1 2 3 "
    );
    Ok(())
}

#[test]
fn the_nearer_of_two_targets_is_the_cheapest(rt: HostRuntime) -> Result<(), Fail> {
    let ring = cut(rt.alloc(), &RING_OF_TEN, &[3, 5])?;
    let none = cheapest_told(rt.alloc(), &ring, "4:5/0", "8:2/2")?;
    assert_eq!(rt; none.as_str(), "- ");
    let near = cheapest_told(rt.alloc(), &ring, "4:5/0", "8:2/2 3:2/2 5:2/2")?;
    assert_eq!(rt; near.as_str(), "8/8/2 4 5 ");
    Ok(())
}

// One search after the other in the memory of one, over a larger graph, a smaller one and the larger one again: what the
// one before has found says nothing to the next.
#[test]
fn searches_of_a_pool_answer_as_new_ones(rt: HostRuntime) -> Result<(), Fail> {
    let alloc = rt.alloc();
    let ten = cut(alloc, &RING_OF_TEN, &[3, 5])?;
    let eight = cut(alloc, &RING_OF_EIGHT, &[2, 4])?;
    let pool = SearchPool::with_room(alloc, 1)?;
    let far = cheapest_told_in(alloc, &ten, &pool, "4:5/0", "3:2/2")?;
    assert_eq!(rt;
        far.as_str(),
        cheapest_told(alloc, &ten, "4:5/0", "3:2/2")?.as_str()
    );
    let other = cheapest_told_in(alloc, &eight, &pool, "0:0/0", "5:0/0")?;
    assert_eq!(rt;
        other.as_str(),
        cheapest_told(alloc, &eight, "0:0/0", "5:0/0")?.as_str()
    );
    let none = cheapest_told_in(alloc, &ten, &pool, "4:5/0", "8:2/2")?;
    assert_eq!(rt; none.as_str(), "- ");
    let near = cheapest_told_in(alloc, &ten, &pool, "4:5/0", "8:2/2 3:2/2 5:2/2")?;
    assert_eq!(rt; near.as_str(), "8/8/2 4 5 ");
    Ok(())
}

// Two are taken at one time of a pool with room for one, and both given back; and none is kept where there is no room.
#[test]
fn a_pool_gives_more_searches_than_it_keeps(rt: HostRuntime) -> Result<(), Fail> {
    let alloc = rt.alloc();
    let ring = cut(alloc, &RING_OF_TEN, &[3, 5])?;
    for room in 0..2 {
        let pool = SearchPool::with_room(alloc, room)?;
        let mut one = pool.take(alloc);
        let near = cheapest_told_by(alloc, &ring, &mut one, "4:5/0", "5:2/2")?;
        assert_eq!(rt; near.as_str(), "8/8/2 4 5 ");
        let two = pool.take(alloc);
        pool.give(one);
        pool.give(two);
        let again = cheapest_told_in(alloc, &ring, &pool, "4:5/0", "5:2/2")?;
        assert_eq!(rt; again.as_str(), "8/8/2 4 5 ");
    }
    Ok(())
}

// The walk that the overlay finds to each target.
fn overlay_told(
    alloc: Global,
    overlay: &Overlay,
    from: &str,
    to: &str,
) -> Result<String, SearchFault>
    requires small { AreSmall road_cost_ops overlay.now.frame.value.graph overlay.now.weights.value }
    requires exact { AreExact road_cost_ops overlay.now.frame.value overlay.now.weights.value overlay.now.cliques.value (length overlay.now.frame.value.cells.levels) }
{
    let vertices = overlay.frame.graph().vertices();
    let starts = starts(alloc, vertices, from)?;
    let targets = targets(alloc, vertices, to)?;
    let found = least_from(
        alloc,
        &overlay.frame,
        &overlay.weights,
        &overlay.cliques,
        &starts,
        &targets,
    )?;
    Ok(walks_told(alloc, &found)?)
}

// The overlay and plain search find the same walk, at the same cost.
fn compare(
    rt: &impl Abort,
    alloc: Global,
    overlay: &Overlay,
    from: &str,
    to: &str,
) -> Result<(), SearchFault>
    requires small { AreSmall road_cost_ops overlay.now.frame.value.graph overlay.now.weights.value }
    requires weighting { IsWeighting road_cost_ops overlay.now.frame.value.graph overlay.now.weights.value }
    requires exact { AreExact road_cost_ops overlay.now.frame.value overlay.now.weights.value overlay.now.cliques.value (length overlay.now.frame.value.cells.levels) }
{
    let plain = plain_told(alloc, overlay.frame.graph(), &overlay.weights, from, to)?;
    let found = overlay_told(alloc, overlay, from, to)?;
    assert_eq!(rt; found.as_str(), plain.as_str());
    let costs = least_costs_told(alloc, overlay, from, to)?;
    assert!(rt;
        plain.as_str().starts_with(costs.as_str()),
        "{from} to {to}"
    );
    Ok(())
}

// The same from one vertex to another.
fn compare_vertices(
    rt: &impl Abort,
    alloc: Global,
    overlay: &Overlay,
    from: u32,
    to: u32,
) -> Result<(), SearchFault>
    requires small { AreSmall road_cost_ops overlay.now.frame.value.graph overlay.now.weights.value }
    requires weighting { IsWeighting road_cost_ops overlay.now.frame.value.graph overlay.now.weights.value }
    requires exact { AreExact road_cost_ops overlay.now.frame.value overlay.now.weights.value overlay.now.cliques.value (length overlay.now.frame.value.cells.levels) }
{
    let from = format!(in alloc; "{from}:5/0")?;
    let to = format!(in alloc; "{to}:2/2")?;
    compare(rt, alloc, overlay, from.as_str(), to.as_str())
}

// The same from each vertex to each.
fn compare_all(rt: &impl Abort, alloc: Global, overlay: &Overlay) -> Result<(), SearchFault>
    requires small { AreSmall road_cost_ops overlay.now.frame.value.graph overlay.now.weights.value }
    requires weighting { IsWeighting road_cost_ops overlay.now.frame.value.graph overlay.now.weights.value }
    requires exact { AreExact road_cost_ops overlay.now.frame.value overlay.now.weights.value overlay.now.cliques.value (length overlay.now.frame.value.cells.levels) }
{
    for from in 0..overlay.frame.graph().vertices() {
        for to in 0..overlay.frame.graph().vertices() {
            compare_vertices(rt, alloc, overlay, from, to)?;
        }
    }
    Ok(())
}

// The same over a drawing that is cut into cells by these limits.
fn compare_cut(
    rt: &impl Abort,
    alloc: Global,
    drawing: &Drawing,
    limits: &[u32],
) -> Result<(), Fail>
    requires ascending { IsStrictlyIncreasing limits.now }
    requires some { All (λ limit. 1 ≤ limit) limits.now }
{
    let overlay = cut(alloc, drawing, limits)?;
    Ok(compare_all(rt, alloc, &overlay)?)
}

#[test]
fn walks_are_those_of_plain_search(rt: HostRuntime) -> Result<(), Fail> {
    compare_cut(&rt, rt.alloc(), &RING_OF_EIGHT, &[2, 4])?;
    compare_cut(&rt, rt.alloc(), &RING_OF_TEN, &[3, 5])?;
    compare_cut(&rt, rt.alloc(), &SMALL, &[2, 4])?;
    compare_cut(&rt, rt.alloc(), &WEIGHED, &[1, 2])?;
    compare_cut(&rt, rt.alloc(), &WEIGHED_RING, &[3, 5])
}
