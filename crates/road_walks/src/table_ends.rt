//! Where the walks of a table start and end.

ghost use Rattle.std.specs.Prelude.{◌≡◌, IfOk};
ghost use Rattle.std.specs.List.{AllZip};
ghost use Rattle.road_places.specs.Places.{ArePlacesOn};
ghost use Rattle.road_walks.specs.TableParts.{AreStartsFrom, AreTargetsTo};

use crate::by_turns::{starts_from, targets_to};
use customized::Under;
use road_base::Place;
use search_graph::WeightDurLen;
use std::alloc::{AllocError, Global};
use table_query::{Starts, Targets};

/// Where the walks from each of the sources may start.
pub(crate) fn starts_of(
    alloc: Global,
    under: &Under<'_>,
    sources: &[Place],
) -> Result<Vec<Starts<WeightDurLen>>, AllocError>
    requires { ArePlacesOn under.now.road.network sources.now }
    ensures { IfOk result (λ lists. AllZip (AreStartsFrom under.now.frame.graph.vertices under.now.road) sources.now lists.items) }
{
    let mut lists = Vec::with_capacity(alloc, sources.len())?;
    for source in sources {
        let starts = starts_from(alloc, under, *source)?;
        lists.push(Starts::of(starts))?;
    }
    Ok(lists)
}

/// Where the walks to each of the destinations may end.
pub(crate) fn targets_of(
    alloc: Global,
    under: &Under<'_>,
    destinations: &[Place],
) -> Result<Vec<Targets<WeightDurLen>>, AllocError>
    requires { ArePlacesOn under.now.road.network destinations.now }
    ensures { IfOk result (λ lists. AllZip (AreTargetsTo under.now.frame.graph.vertices under.now.road) destinations.now lists.items) }
{
    let mut lists = Vec::with_capacity(alloc, destinations.len())?;
    for destination in destinations {
        let targets = targets_to(alloc, under, *destination)?;
        lists.push(Targets::of(targets))?;
    }
    Ok(lists)
}
