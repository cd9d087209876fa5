//! A town of three nodes and one way: its roads, their first metric, and a board of it. What is deep stands in a box: a
//! proof goes through all that is dropped at each exit, and a box is one step.

ghost use Rattle.std.specs.Prelude.{◌≡◌, IfOk};
ghost use Rattle.std.specs.Arc.{arc_value};
ghost use Rattle.control_port.specs.Controlling.{IsOn};
ghost use Rattle.customized.specs.Exact.{Customized};
ghost use Rattle.metric_publish.specs.History.{IsKin};
ghost use Rattle.snap_index.specs.Ends.{all_ends};

use customized::{Metric, Roads};
use edge_graph::Network;
use metric_publish::{Kindred, LocalBoard};
use opl_read::read;
use road_base::Object;
use snap_index::Grid;
use std::alloc::{AllocError, Global};
use std::sync::Arc;
use std::thread::Threads;
use way_profile::Profile;

const TOWN: &[u8] =
    b"n1 x0 y0\nn2 x0 y0.001\nn3 x0.001 y0.001\nw10 Thighway=residential Nn1,n2,n3\n";

const SETTINGS: &[u8] =
    b"name = \"car\"\nvehicle = \"motorcar\"\nu_turn_penalty = 200\n[speeds]\nresidential = 40\n";

fn profile(alloc: Global) -> Result<Box<Profile>, AllocError> {
    match Profile::read(alloc, SETTINGS) {
        Ok(profile) => Ok(Box::new(alloc, profile)?),
        Err(_) => Err(AllocError),
    }
}

fn network(alloc: Global, objects: &[Object], profile: &Profile) -> Result<Network, AllocError> {
    match Network::build(alloc, objects, profile) {
        Ok(network) => Ok(network),
        Err(_) => Err(AllocError),
    }
}

fn roads_of(alloc: Global, objects: &[Object]) -> Result<Roads, AllocError> {
    let profile = profile(alloc)?;
    Roads::for_server(alloc, network(alloc, objects, &profile)?)
}

/// The roads of the town.
pub fn roads(alloc: Global) -> Result<Box<Roads>, AllocError> {
    match read(alloc, TOWN) {
        Ok(objects) => Ok(Box::new(alloc, roads_of(alloc, &objects)?)?),
        Err(_) => Err(AllocError),
    }
}

/// The grid of these roads.
pub fn grid(alloc: Global, roads: &Roads) -> Result<Box<Grid>, AllocError>
    ensures { IfOk result (λ grid. grid.value ≡ all_ends roads.now.network.segments) }
{
    Ok(Box::new(alloc, Grid::of(alloc, roads.network())?)?)
}

/// The metric of these roads by the profile alone.
pub fn first_metric(
    rt: &(impl Threads + Sync),
    alloc: Global,
    roads: &Roads,
) -> Result<Arc<Metric>, AllocError>
    ensures { IfOk result (λ metric. IsOn roads.now (arc_value metric)) }
{
    let base = roads.base().copy()?;
    Ok(Arc::new(alloc, Metric::make(rt, alloc, roads, base)?)?)
}

// A board of these roads, opened under this number by the profile alone.
fn opened(
    rt: &(impl Threads + Sync),
    alloc: Global,
    roads: &Roads,
    number: u32,
) -> Result<LocalBoard<Metric>, AllocError>
    ensures kin { IfOk result (λ board. (x : Customized) → IsOn roads.now x → IsKin ⟦<Metric as Kindred>⟧.akin board.page.token.log x) }
    ensures on { IfOk result (λ board. (x : Customized) → IsKin ⟦<Metric as Kindred>⟧.akin board.page.token.log x → IsOn roads.now x) }
{
    LocalBoard::of(alloc, first_metric(rt, alloc, roads)?, number)
}

/// The same in a box.
pub fn board(
    rt: &(impl Threads + Sync),
    alloc: Global,
    roads: &Roads,
    number: u32,
) -> Result<Box<LocalBoard<Metric>>, AllocError>
    ensures kin { IfOk result (λ board. (x : Customized) → IsOn roads.now x → IsKin ⟦<Metric as Kindred>⟧.akin board.value.page.token.log x) }
    ensures on { IfOk result (λ board. (x : Customized) → IsKin ⟦<Metric as Kindred>⟧.akin board.value.page.token.log x → IsOn roads.now x) }
{
    Ok(Box::new(alloc, opened(rt, alloc, roads, number)?)?)
}

/// The number of the last publication.
pub fn last_number(board: &LocalBoard<Metric>) -> Result<u32, AllocError> {
    Ok(board.enter()?.number())
}
