//! Where walks start and end that begin and end in given states of their places.

ghost use Rattle.std.specs.Prelude.{◌≡◌, ◌<◌, ◌==◌, IfOk, map};
ghost use Rattle.std.specs.List.{AllZip, Contains, filter};
ghost use Rattle.search_graph.specs.RoadCosts.{road_cost_ops};
ghost use Rattle.road_places.specs.Ends.{AreAll};
ghost use Rattle.road_places.specs.Places.{IsPlaceOn};
ghost use Rattle.road_walks.specs.Between.{IsStartAt, IsTargetAt, states_of};
ghost use Rattle.road_walks.specs.BetweenParts.{AreStartsAt, AreTargetsAt, start_moved};

use crate::by_turns::{starts_from, targets_to};
use crate::states::states_of;
use customized::Under;
use road_base::Place;
use search_graph::{Start, Target, WeightDurLen};
use std::alloc::{AllocError, Global};
use table_query::{Starts, Targets};

// Keeps those of the starts that stand at this vertex.
fn keep_starts(starts: &mut Vec<Start<WeightDurLen>>, vertex: u32)
    ensures { starts.new.items ≡ filter (λ s. s.vertex == vertex) starts.old.items }
{
    starts.retain(|start| start.vertex == vertex);
}

// Keeps those of the targets that stand at this vertex.
fn keep_targets(targets: &mut Vec<Target<WeightDurLen>>, vertex: u32)
    ensures { targets.new.items ≡ filter (λ t. t.vertex == vertex) targets.old.items }
{
    targets.retain(|target| target.vertex == vertex);
}

// Puts each of the starts at this vertex, at its cost.
fn move_starts(starts: &mut Vec<Start<WeightDurLen>>, vertex: u32)
    ensures { starts.new.items ≡ map (start_moved vertex) starts.old.items }
{
    for number in 0..starts.len() {
        let cost = starts[number].cost;
        starts[number] = Start { vertex, cost };
    }
}

/// Where a walk from a place may start in this state of it: nowhere, if the vertex for which it stands is closed.
pub(crate) fn starts_at(
    alloc: Global,
    under: &Under<'_>,
    from: Place,
    state: u32,
) -> Result<Vec<Start<WeightDurLen>>, AllocError>
    requires placed { IsPlaceOn under.now.road.network from }
    requires state { Contains (states_of under.now.road.network from) state }
    ensures all { IfOk result (λ starts. AreAll (IsStartAt under.now.road from state) starts.items) }
    ensures fit { IfOk result (λ starts. (s : _) → Contains starts.items s → (s.vertex < under.now.frame.graph.vertices) × road_cost_ops.units s.cost 1) }
{
    let _graph = under.frame();
    let vertex = under.network().stands_for(state);
    let mut starts = starts_from(alloc, under, from)?;
    keep_starts(&mut starts, vertex);
    move_starts(&mut starts, state);
    Ok(starts)
}

/// Where a walk to a place may end in this state of it: nowhere, if the vertex for which it stands is closed.
pub(crate) fn targets_at(
    alloc: Global,
    under: &Under<'_>,
    to: Place,
    state: u32,
) -> Result<Vec<Target<WeightDurLen>>, AllocError>
    requires placed { IsPlaceOn under.now.road.network to }
    requires state { Contains (states_of under.now.road.network to) state }
    ensures all { IfOk result (λ targets. AreAll (IsTargetAt under.now.road to state) targets.items) }
    ensures fit { IfOk result (λ targets. (t : _) → Contains targets.items t → (t.vertex < under.now.frame.graph.vertices) × road_cost_ops.units t.cost 1) }
{
    let mut targets = targets_to(alloc, under, to)?;
    keep_targets(&mut targets, state);
    Ok(targets)
}

/// Where the walks from a place may start, for each of its states.
pub(crate) fn starts_by_state(
    alloc: Global,
    under: &Under<'_>,
    from: Place,
) -> Result<Vec<Starts<WeightDurLen>>, AllocError>
    requires { IsPlaceOn under.now.road.network from }
    ensures { IfOk result (λ lists. AllZip (AreStartsAt under.now.frame.graph.vertices under.now.road from) (states_of under.now.road.network from) lists.items) }
{
    let states = states_of(alloc, under.network(), from)?;
    let mut lists = Vec::with_capacity(alloc, states.len())?;
    for number in 0..states.len() {
        let starts = starts_at(alloc, under, from, states[number])?;
        lists.push(Starts::of(starts))?;
    }
    Ok(lists)
}

/// Where the walks to a place may end, for each of its states.
pub(crate) fn targets_by_state(
    alloc: Global,
    under: &Under<'_>,
    to: Place,
) -> Result<Vec<Targets<WeightDurLen>>, AllocError>
    requires { IsPlaceOn under.now.road.network to }
    ensures { IfOk result (λ lists. AllZip (AreTargetsAt under.now.frame.graph.vertices under.now.road to) (states_of under.now.road.network to) lists.items) }
{
    let states = states_of(alloc, under.network(), to)?;
    let mut lists = Vec::with_capacity(alloc, states.len())?;
    for number in 0..states.len() {
        let targets = targets_at(alloc, under, to, states[number])?;
        lists.push(Targets::of(targets))?;
    }
    Ok(lists)
}
