//! Where walks from a place start, and where walks to one end.

ghost use Rattle.std.specs.Prelude.{◌≡◌, ◌+◌, ◌*◌, ◌^◌, ◌<◌, ◌≤◌, ◌++◌, IfOk, MatchOption, None, Some, length};
ghost use Rattle.std.specs.List.{slice_get};
ghost use Rattle.std.specs.Option.{option_to_list};
ghost use Rattle.road_places.specs.Ends.{AreAll};
ghost use Rattle.road_places.specs.Permitted.{IsStart, IsStartAlong, IsTarget, IsTargetAlong};

use crate::places::{before, parts_along};
use metric_make::BaseMetric;
use road_base::Place;
use search_graph::{Cost, Start, Target, WeightDurLen};
use std::alloc::{AllocError, Global};

/// The start of the walks from a place along a vertex, or None where that is closed: what is left of the
/// vertex behind the place is paid.
pub fn start_at(base: &BaseMetric, place: Place, vertex: u32) -> Option<Start<WeightDurLen>>
    requires in_range { vertex < length base.now.weights.vertex }
    requires within { place.at ≤ 1024 }
    ensures { MatchOption result (slice_get base.now.weights.vertex vertex ≡ Some None) (IsStartAlong base.now.weights place vertex) }
{
    let cost = base.vertex(vertex)?;
    let passed = before(cost, parts_along(place, vertex));
    let cost = cost.minus(passed);
    Some(Start { vertex, cost })
}

/// The target of the walks to a place along a vertex, or None where that is closed: what lies of the vertex
/// before the place is paid.
pub fn target_at(base: &BaseMetric, place: Place, vertex: u32) -> Option<Target<WeightDurLen>>
    requires in_range { vertex < length base.now.weights.vertex }
    requires within { place.at ≤ 1024 }
    ensures { MatchOption result (slice_get base.now.weights.vertex vertex ≡ Some None) (IsTargetAlong base.now.weights place vertex) }
{
    let cost = base.vertex(vertex)?;
    let cost = before(cost, parts_along(place, vertex));
    Some(Target { vertex, cost })
}

/// Where a walk from a place may start: at each open direction of its segment. It answers an error only
/// where memory runs out.
pub fn starts(
    alloc: Global,
    base: &BaseMetric,
    place: Place,
) -> Result<Vec<Start<WeightDurLen>>, AllocError>
    requires few { place.segment < 2 ^ 30 }
    requires in_range { 2 * place.segment + 1 < length base.now.weights.vertex }
    requires within { place.at ≤ 1024 }
    ensures { IfOk result (λ starts. AreAll (IsStart base.now.weights place) starts.items) }
{
    let forward = start_at(base, place, 2 * place.segment);
    let backward = start_at(base, place, 2 * place.segment + 1);
    listed(alloc, forward, backward)
}

/// Where a walk to a place may end: at each open direction of its segment. It answers an error only where
/// memory runs out.
pub fn targets(
    alloc: Global,
    base: &BaseMetric,
    place: Place,
) -> Result<Vec<Target<WeightDurLen>>, AllocError>
    requires few { place.segment < 2 ^ 30 }
    requires in_range { 2 * place.segment + 1 < length base.now.weights.vertex }
    requires within { place.at ≤ 1024 }
    ensures { IfOk result (λ targets. AreAll (IsTarget base.now.weights place) targets.items) }
{
    let forward = target_at(base, place, 2 * place.segment);
    let backward = target_at(base, place, 2 * place.segment + 1);
    listed(alloc, forward, backward)
}

// Those of two that there are.
fn listed<E: Drop>(
    alloc: Global,
    forward: Option<E>,
    backward: Option<E>,
) -> Result<Vec<E>, AllocError>
    ensures { IfOk result (λ list. list.items ≡ option_to_list forward ++ option_to_list backward) }
{
    let mut list = Vec::with_capacity(alloc, 2)?;
    if let Some(end) = forward {
        list.push(end)?;
    }
    if let Some(end) = backward {
        list.push(end)?;
    }
    Ok(list)
}
