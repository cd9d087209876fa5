//! Tables of least costs.

ghost use Rattle.std.specs.Prelude.{◌≡◌, ◌<◌, length, All, IfOk};
ghost use Rattle.search_graph.specs.RoadCosts.{road_cost_ops};
ghost use Rattle.search_graph.specs.Weighted.{AreSmall, IsWeighting};
ghost use Rattle.cell_frame.specs.Cliqued.{AreExact};

use cost_texts::{cost_told, costs_told};
use head_index::HeadIndex;
use plain_search::{Found, SearchFault, least_from};
use search_graph::WeightDurLen;
use small_graphs::{Overlay, RING_OF_EIGHT, RING_OF_TEN, SMALL, cut, starts, targets};
use std::alloc::{AllocError, Global};
use std::test::Fail;
use std::thread::Threads;
use table_query::{Row, Starts, Targets, table};

// The lists of starts, with a semicolon between each two.
fn sources(
    alloc: Global,
    vertices: u32,
    lists: &str,
) -> Result<Vec<Starts<WeightDurLen>>, AllocError>
    ensures { IfOk result (λ lists. All (All (λ s. (s.vertex < vertices) × road_cost_ops.units s.cost 1)) lists.items) }
{
    let mut sources = Vec::new(alloc);
    for list in lists.split(';') {
        sources.push(Starts::of(starts(alloc, vertices, list)?))?;
    }
    Ok(sources)
}

// The lists of targets.
fn columns(
    alloc: Global,
    vertices: u32,
    lists: &str,
) -> Result<Vec<Targets<WeightDurLen>>, AllocError>
    ensures { IfOk result (λ lists. All (All (λ t. (t.vertex < vertices) × road_cost_ops.units t.cost 1)) lists.items) }
{
    let mut columns = Vec::new(alloc);
    for list in lists.split(';') {
        columns.push(Targets::of(targets(alloc, vertices, list)?))?;
    }
    Ok(columns)
}

// The rows of a table, with a bar behind each.
fn rows_told(alloc: Global, rows: &[Row<WeightDurLen>]) -> Result<String, AllocError> {
    let mut text = String::new(alloc);
    for row in rows {
        text.push_str(costs_told(alloc, row.as_slice())?.as_str())?;
        text.push_str("| ")?;
    }
    Ok(text)
}

// The table of these lists.
fn table_told(
    rt: &(impl Threads + Sync),
    alloc: Global,
    overlay: &Overlay,
    from: &str,
    to: &str,
) -> Result<String, SearchFault>
    requires small { AreSmall road_cost_ops overlay.now.frame.value.graph overlay.now.weights.value }
    requires exact { AreExact road_cost_ops overlay.now.frame.value overlay.now.weights.value overlay.now.cliques.value (length overlay.now.frame.value.cells.levels) }
{
    let vertices = overlay.frame.graph().vertices();
    let sources = sources(alloc, vertices, from)?;
    let columns = columns(alloc, vertices, to)?;
    let heads = HeadIndex::of(alloc, overlay.frame.graph())?;
    let given = column_search::Overlay {
        frame: &overlay.frame,
        weights: &overlay.weights,
        cliques: &overlay.cliques,
        heads: &heads,
    };
    let rows = table(rt, alloc, &given, &sources, &columns)?;
    Ok(rows_told(alloc, &rows)?)
}

#[test]
fn least_costs_in_a_small_graph(rt: HostRuntime) -> Result<(), Fail> {
    let small = cut(rt.alloc(), &SMALL, &[2, 4])?;
    let from = "0:8/0 5:30/0 3:0/0;0:8/0;3:0/0";
    let to = "4:2/2;0:3/3 2:1/0;3:0/0 6:0/0";
    let told = table_told(&rt, rt.alloc(), &small, from, to)?;
    assert_eq!(rt;
        told.as_str(),
        "32/32/11 20/20/52 - | 44/44/86 20/20/52 - | - - - | "
    );
    Ok(())
}

// What the walk to each target costs.
fn found_told(alloc: Global, found: &[Option<Found<WeightDurLen>>]) -> Result<String, AllocError> {
    let mut text = String::new(alloc);
    for found in found {
        let cost = found.as_ref().map(|found| found.cost);
        text.push_str(cost_told(alloc, cost)?.as_str())?;
    }
    Ok(text)
}

// The row that plain search finds from a start.
fn plain_row_told(
    alloc: Global,
    overlay: &Overlay,
    from: &str,
    to: &str,
) -> Result<String, SearchFault>
    requires { IsWeighting road_cost_ops overlay.now.frame.value.graph overlay.now.weights.value }
{
    let graph = overlay.frame.graph();
    let starts = starts(alloc, graph.vertices(), from)?;
    let targets = targets(alloc, graph.vertices(), to)?;
    let found = least_from(alloc, graph, &overlay.weights, &starts, &targets)?;
    Ok(found_told(alloc, &found)?)
}

// The rows that plain search finds, from each of these starts.
fn plain_told(alloc: Global, overlay: &Overlay, from: &str, to: &str) -> Result<String, SearchFault>
    requires { IsWeighting road_cost_ops overlay.now.frame.value.graph overlay.now.weights.value }
{
    let mut text = String::new(alloc);
    for start in from.split(' ') {
        text.push_str(plain_row_told(alloc, overlay, start, to)?.as_str())?;
        text.push_str("| ")?;
    }
    Ok(text)
}

#[test]
fn each_cell_is_what_plain_search_finds(rt: HostRuntime) -> Result<(), Fail> {
    let small = cut(rt.alloc(), &SMALL, &[2, 4])?;
    let (from, to) = ("0:8/1;2:8/1;4:8/1", "0:1/3;2:1/3;4:1/3");
    let told = table_told(&rt, rt.alloc(), &small, from, to)?;
    let (from, to) = ("0:8/1 2:8/1 4:8/1", "0:1/3 2:1/3 4:1/3");
    let plain = plain_told(rt.alloc(), &small, from, to)?;
    assert_eq!(rt; told.as_str(), plain.as_str());
    Ok(())
}

// A table of many rows, and no more columns, is made by columns: what each target costs from the entries of its cells, once.
#[test]
fn each_cell_of_many_rows_is_what_plain_search_finds(rt: HostRuntime) -> Result<(), Fail> {
    let ring = cut(rt.alloc(), &RING_OF_EIGHT, &[2, 4])?;
    let from = "0:8/1;1:8/1;2:8/1;3:8/1;4:8/1;5:8/1;6:8/1;7:8/1;\
         0:0/3;1:0/3;2:0/3;3:0/3;4:0/3;5:0/3;6:0/3;7:0/3;\
         0:5/0;1:5/0;2:5/0;3:5/0;4:5/0;5:5/0;6:5/0;7:5/0";
    let to = "0:1/3;1:1/3;2:1/3;3:1/3;4:1/3;5:1/3;6:1/3;7:1/3";
    let told = table_told(&rt, rt.alloc(), &ring, from, to)?;
    let from = "0:8/1 1:8/1 2:8/1 3:8/1 4:8/1 5:8/1 6:8/1 7:8/1 \
         0:0/3 1:0/3 2:0/3 3:0/3 4:0/3 5:0/3 6:0/3 7:0/3 \
         0:5/0 1:5/0 2:5/0 3:5/0 4:5/0 5:5/0 6:5/0 7:5/0";
    let to = "0:1/3 1:1/3 2:1/3 3:1/3 4:1/3 5:1/3 6:1/3 7:1/3";
    let plain = plain_told(rt.alloc(), &ring, from, to)?;
    assert_eq!(rt; told.as_str(), plain.as_str());
    Ok(())
}

#[test]
fn many_rows_over_three_levels_are_what_plain_search_finds(rt: HostRuntime) -> Result<(), Fail> {
    let ring = cut(rt.alloc(), &RING_OF_TEN, &[1, 3, 6])?;
    let from = "0:2/1;1:2/1;2:2/1;3:2/1;4:2/1;5:2/1;6:2/1;7:2/1;8:2/1;9:2/1;\
         0:7/0;1:7/0;2:7/0;3:7/0;4:7/0;5:7/0;6:7/0;7:7/0;8:7/0;9:7/0;\
         0:0/9;1:0/9;2:0/9;3:0/9;4:0/9;5:0/9;6:0/9;7:0/9;8:0/9;9:0/9";
    let to = "0:1/9;1:1/9;2:1/9;3:1/9;4:1/9;5:1/9;6:1/9;7:1/9;8:1/9;9:1/9";
    let told = table_told(&rt, rt.alloc(), &ring, from, to)?;
    let from = "0:2/1 1:2/1 2:2/1 3:2/1 4:2/1 5:2/1 6:2/1 7:2/1 8:2/1 9:2/1 \
         0:7/0 1:7/0 2:7/0 3:7/0 4:7/0 5:7/0 6:7/0 7:7/0 8:7/0 9:7/0 \
         0:0/9 1:0/9 2:0/9 3:0/9 4:0/9 5:0/9 6:0/9 7:0/9 8:0/9 9:0/9";
    let to = "0:1/9 1:1/9 2:1/9 3:1/9 4:1/9 5:1/9 6:1/9 7:1/9 8:1/9 9:1/9";
    let plain = plain_told(rt.alloc(), &ring, from, to)?;
    assert_eq!(rt; told.as_str(), plain.as_str());
    Ok(())
}
