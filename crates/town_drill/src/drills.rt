//! A whole drill.

ghost use Rattle.std.specs.Prelude.{◌≡◌, ◌<◌, ◌≤◌, Ok, IfOk, IfErr, string_bytes};
ghost use Rattle.map_loading.specs.LoadCause.{IsLoadFault};
ghost use Rattle.map_loading.specs.Loading.{load_of};
ghost use Rattle.snap_index.specs.Ends.{all_ends};
ghost use Rattle.town_text.specs.Town.{town_text};
ghost use Rattle.town_drill.specs.Asked.{settings_text};
ghost use Rattle.town_drill.specs.Drill.{AreLines, IsDrill, IsLine};

use crate::asked::trips_under;
use crate::metrics::metric_of;
use crate::telling::line;
use customized::Roads;
use edge_graph::Network;
use map_loading::{LoadFault, load};
use snap_index::Grid;
use std::alloc::{AllocError, Global};
use std::thread::Threads;
use town_text::town;

/// The settings.
const SETTINGS: &[u8] =
    b"name = \"car\"\nvehicle = \"motorcar\"\nu_turn_penalty = 200\n\n[speeds]\nprimary = 60\nresidential = 30\n\n[turn_penalty]\nleft = 30\nright = 10\n";

/// How many metrics there are.
const METRICS: u32 = 4;

// The line on the metric of this number.
fn line_on(
    rt: &(impl Threads + Sync),
    alloc: Global,
    roads: &Roads,
    grid: &Grid,
    n: u32,
    number: u32,
) -> Result<String, AllocError>
    requires grid { grid.now ≡ all_ends roads.now.network.segments }
    requires some { 1 ≤ n }
    requires few { n ≤ 1000 }
    requires number { number < 4 }
    ensures { IfOk result (λ line. IsLine roads.now.network n number (string_bytes line)) }
{
    let metric = metric_of(rt, alloc, roads, n, number)?;
    let under = metric.under(None);
    let trips = trips_under(alloc, &under, grid, n, number)?;
    let text = line(alloc, number, &trips)?;
    Ok(text)
}

// The lines on all metrics of roads, which are those of town `n`.
fn lines_under(
    rt: &(impl Threads + Sync),
    alloc: Global,
    roads: &Roads,
    grid: &Grid,
    n: u32,
) -> Result<String, AllocError>
    requires grid { grid.now ≡ all_ends roads.now.network.segments }
    requires some { 1 ≤ n }
    requires few { n ≤ 1000 }
    ensures { IfOk result (λ text. AreLines roads.now.network n (string_bytes text)) }
{
    let mut text = String::new(alloc);
    for number in 0..METRICS {
        let line = line_on(rt, alloc, roads, grid, n, number)?;
        text.push_str(&line)?;
    }
    Ok(text)
}

// The lines on all metrics of the network of town `n`.
fn lines_on(
    rt: &(impl Threads + Sync),
    alloc: Global,
    network: Network,
    n: u32,
) -> Result<String, AllocError>
    requires some { 1 ≤ n }
    requires few { n ≤ 1000 }
    ensures { IfOk result (λ text. AreLines network n (string_bytes text)) }
{
    let roads = Roads::for_server(alloc, network)?;
    let grid = Grid::of(alloc, roads.network())?;
    let text = lines_under(rt, alloc, &roads, &grid, n)?;
    Ok(text)
}

// The network of town `n`, read as a map with the drill's settings.
pub(crate) fn load_town(alloc: Global, n: u32) -> Result<Network, LoadFault>
    requires some { 2 ≤ n }
    requires few { n ≤ 1000 }
    ensures loaded { IfOk result (λ network. load_of (town_text n) settings_text ≡ Ok network) }
    ensures fault { IfErr result (IsLoadFault (load_of (town_text n) settings_text)) }
{
    let text = town(alloc, n)?;
    match load(alloc, text.into_bytes(), SETTINGS) {
        Ok(loaded) => Ok(loaded.network),
        Err(fault) => Err(fault),
    }
}

/// Drills on town `n`: its text is read as a map, and under its own metric and three of speed rows sixteen trips are
/// made each, along least routes. It answers four lines, one for each metric, with how many trips arrive, how many have
/// no route, and how long those take together.
///
/// It answers `Refused` exactly where the town's text is refused as a map with the drill's settings, or `Memory` where
/// memory runs out. Metrics are customized in threads; it waits for nobody.
pub fn drill(rt: &(impl Threads + Sync), alloc: Global, n: u32) -> Result<String, LoadFault>
    requires some { 2 ≤ n }
    requires few { n ≤ 1000 }
    ensures drilled { IfOk result (λ text. IsDrill n (string_bytes text)) }
    ensures fault { IfErr result (IsLoadFault (load_of (town_text n) settings_text)) }
{
    match load_town(alloc, n) {
        Ok(network) => Ok(lines_on(rt, alloc, network, n)?),
        Err(fault) => Err(fault),
    }
}
