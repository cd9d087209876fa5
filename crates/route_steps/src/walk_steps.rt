//! The steps of a walk.

ghost use Rattle.std.specs.Prelude.{◌≡◌, ◌+◌, ◌*◌, ◌^◌, ◌<◌, ◌≤◌, ◌++◌, All, IfOk, OnOk, Some, length, map, slice_range};
ghost use Rattle.std.specs.List.{slice_get};
ghost use Rattle.search_graph.specs.RoadCosts.{road_cost_ops};
ghost use Rattle.search_graph.specs.declared.costs.WeightDurLen.{WeightDurLen};
ghost use Rattle.road_places.specs.Paid.{paid_along, total_of};
ghost use Rattle.road_places.specs.Permitted.{IsPermitted};
ghost use Rattle.road_places.specs.Places.{IsPlaceOn};
ghost use Rattle.metric_make.specs.RoadMetric.{road_of};
ghost use Rattle.route_steps.specs.Points.{points_along};
ghost use Rattle.route_steps.specs.StepParts.{IsCourse};
ghost use Rattle.route_steps.specs.StepSums.{AddUp, IsLineCut};
ghost use Rattle.route_steps.specs.Steps.{AreAhead, arrival_at, begin_told, cost_between, pieces, step_between, steps_along};
ghost use Rattle.route_steps.specs.Turnings.{turns_paid};

use crate::begins::{Begin, begins_along};
use crate::intersection_lists::Intersections;
use crate::intersections::{arrival_on, intersections_between};
use crate::maneuvers::{Maneuver, ManeuverKind};
use crate::paid::{Costs, paid_along};
use crate::step_lists::{Step, Steps};
use crate::turnings::{bearing_on, turns_paid};
use crate::walk_points::leg_points;
use edge_graph::Network;
use metric_make::BaseMetric;
use road_base::{Place, Point, Points, Text};
use search_graph::{Cost, WeightDurLen};
use std::alloc::{AllocError, Global};

// The points of a walk, and what it pays at its vertices and at its turns.
struct Course {
    points: Points,
    paid: Costs,
    turns: Costs,
}

impl Drop for Course {
    fn drop(self) {
        let Course {
            points: _points,
            paid: _paid,
            turns: _turns,
        } = self;
    }
}

// All these costs together.
fn total(costs: &[WeightDurLen]) -> WeightDurLen
    requires { road_cost_ops.units (total_of costs.now) (2 ^ 30) }
    ensures { result ≡ total_of costs.now }
{
    let mut sum = WeightDurLen::ZERO;
    for cost in costs {
        sum = sum.plus(*cost);
    }
    sum
}

// The costs of a part of a list together.
fn total_between(costs: &[WeightDurLen], begin: usize, end: usize) -> WeightDurLen
    requires small { road_cost_ops.units (total_of costs.now) (2 ^ 30) }
    requires ahead { begin ≤ end }
    requires within { end ≤ length costs.now }
    ensures value { result ≡ total_of (slice_range costs.now begin end) }
    ensures bound { road_cost_ops.units result (2 ^ 30) }
{
    total(&costs[begin..end])
}

// What is paid from one place of a walk to another.
fn cost_between(course: &Course, begin: usize, end: usize) -> WeightDurLen
    requires course { IsCourse (length course.now.paid) course.now.points course.now.paid course.now.turns }
    requires ahead { begin < end }
    requires within { end ≤ length course.now.paid }
    ensures { result ≡ cost_between course.now.paid course.now.turns begin end }
{
    let paid = total_between(course.paid.as_slice(), begin, end);
    let turns = total_between(course.turns.as_slice(), begin.saturating_sub(1), end - 1);
    paid.plus(turns)
}

// What the driver is told where a step begins.
fn begin_told(network: &Network, walk: &[u32], points: &[Point], begin: Begin) -> Maneuver
    requires in_range { All (λ v. v < 2 * length network.now.segments) walk.now }
    requires place { begin.place < length walk.now }
    requires points { length points.now ≡ length walk.now + 1 }
    ensures { result ≡ begin_told network.now walk.now points.now begin }
{
    let before = if begin.place == 0 {
        0
    } else {
        bearing_on(network, walk[begin.place - 1])
    };
    Maneuver {
        location: points[begin.place],
        before,
        after: bearing_on(network, walk[begin.place]),
        kind: begin.kind,
        modifier: begin.modifier,
        exit: begin.exit,
    }
}

// The step from a begin to the place where it ends.
fn step_between(
    alloc: Global,
    network: &Network,
    walk: &[u32],
    course: &Course,
    begin: Begin,
    end: usize,
) -> Result<Step, AllocError>
    requires in_range { All (λ v. v < 2 * length network.now.segments) walk.now }
    requires course { IsCourse (length walk.now) course.now.points course.now.paid course.now.turns }
    requires ahead { begin.place < end }
    requires within { end ≤ length walk.now }
    ensures { IfOk result (λ step. step ≡ step_between network.now walk.now course.now.points course.now.paid course.now.turns (begin, end)) }
{
    let line = course.points.as_slice();
    let points = Vec::from_slice(alloc, &line[begin.place..end + 1])?;
    let name = Text::copy_of(alloc, network.name(walk[begin.place]))?;
    let intersections = intersections_between(alloc, network, walk, line, begin.place, end)?;
    Ok(Step {
        cost: cost_between(course, begin.place, end),
        points: Points::of(points),
        name,
        maneuver: begin_told(network, walk, line, begin),
        intersections,
    })
}

// The arrival at a point on the last vertex of a walk.
fn arrival_at(alloc: Global, network: &Network, last: u32, point: Point) -> Result<Step, AllocError>
    requires { last < 2 * length network.now.segments }
    ensures { IfOk result (λ step. step ≡ arrival_at network.now last point) }
{
    let points = Vec::from_slice(alloc, &[point, point])?;
    let name = Text::copy_of(alloc, network.name(last))?;
    let mut intersections = Vec::with_capacity(alloc, 1)?;
    intersections.push(arrival_on(alloc, network, point, last)?)?;
    Ok(Step {
        cost: WeightDurLen::ZERO,
        points: Points::of(points),
        name,
        maneuver: Maneuver {
            location: point,
            before: bearing_on(network, last),
            after: 0,
            kind: ManeuverKind::Arrive,
            modifier: None,
            exit: None,
        },
        intersections: Intersections::of(intersections),
    })
}

// The points of a permitted walk, and what it pays at its vertices and at its turns.
fn course_of(
    alloc: Global,
    base: &BaseMetric,
    network: &Network,
    walk: &[u32],
    from: Place,
    to: Place,
) -> Result<Course, AllocError>
    requires walk { (d : WeightDurLen) × IsPermitted (road_of network.now base.now) from to walk.now d × road_cost_ops.units d (2 ^ 30) }
    requires from { IsPlaceOn network.now from }
    requires to { IsPlaceOn network.now to }
    ensures points { IfOk result (λ course. course.points ≡ points_along network.now.segments from to walk.now) }
    ensures paid { IfOk result (λ course. course.paid ≡ paid_along base.now.weights from to walk.now) }
    ensures turns { IfOk result (λ course. course.turns ≡ turns_paid (road_of network.now base.now) walk.now) }
    ensures course { IfOk result (λ course. IsCourse (length walk.now) course.points course.paid course.turns) }
{
    // tells a proof that all turns are in range
    let _turns = network.graph();
    let points = leg_points(alloc, network, walk, from, to)?;
    let paid = paid_along(alloc, base, walk, from, to)?;
    let turns = turns_paid(alloc, base, network, walk)?;
    Ok(Course {
        points,
        paid,
        turns: Costs::of(turns),
    })
}

// A begin of a step, with the place where that step ends: where the next one begins, or at the walk's end.
fn piece(begins: &[Begin], k: usize, end: usize) -> (Begin, usize)
    requires { k < length begins.now }
    ensures { slice_get (pieces begins.now end) k ≡ Some result }
{
    if k + 1 < begins.len() {
        (begins[k], begins[k + 1].place)
    } else {
        (begins[k], end)
    }
}

// Adds the step from each begin to where the next one begins, and from the last to the walk's end.
fn push_steps(
    steps: &mut Vec<Step>,
    alloc: Global,
    network: &Network,
    walk: &[u32],
    course: &Course,
    begins: &[Begin],
) -> Result<(), AllocError>
    requires in_range { All (λ v. v < 2 * length network.now.segments) walk.now }
    requires course { IsCourse (length walk.now) course.now.points course.now.paid course.now.turns }
    requires ahead { AreAhead (length walk.now) (pieces begins.now (length walk.now)) }
    ensures { OnOk result (steps.new.items ≡ steps.old.items ++ map (step_between network.now walk.now course.now.points course.now.paid course.now.turns) (pieces begins.now (length walk.now))) }
{
    for k in 0..begins.len() {
        let (begin, end) = piece(begins, k, walk.len());
        steps.push(step_between(alloc, network, walk, course, begin, end)?)?;
    }
    Ok(())
}

/// The steps of a permitted walk, of at most 2^30 units, from one place to another. The first one begins with the
/// departure, a further one at each turn of which the driver is told, and the last is the arrival, which costs
/// nothing and has the walk's last point twice. A turn's cost belongs to the step that begins at it, or else to the
/// one in which it lies. Together the steps cost what the walk costs, in each part, and the lines of those before the
/// arrival are the walk's line, cut. Each has the intersections from its begin on that lie before its end, and the
/// arrival one. It answers an error only where memory runs out.
pub fn steps(
    alloc: Global,
    base: &BaseMetric,
    network: &Network,
    walk: &[u32],
    from: Place,
    to: Place,
) -> Result<Steps, AllocError>
    requires walk { (d : WeightDurLen) × IsPermitted (road_of network.now base.now) from to walk.now d × road_cost_ops.units d (2 ^ 30) }
    requires from { IsPlaceOn network.now from }
    requires to { IsPlaceOn network.now to }
    ensures steps { IfOk result (λ steps. steps ≡ steps_along (road_of network.now base.now) from to walk.now) }
    ensures totals { IfOk result (AddUp (road_of network.now base.now) from to walk.now) }
    ensures line { IfOk result (IsLineCut (road_of network.now base.now) from to walk.now) }
{
    // tells a proof that all turns are in range
    let _turns = network.graph();
    let course = course_of(alloc, base, network, walk, from, to)?;
    let begins = begins_along(alloc, network, walk)?;
    let mut steps = Vec::with_capacity(alloc, begins.len() + 1)?;
    push_steps(&mut steps, alloc, network, walk, &course, &begins)?;
    let last = walk[walk.len() - 1];
    let end = course.points.as_slice()[walk.len()];
    steps.push(arrival_at(alloc, network, last, end)?)?;
    Ok(Steps::of(steps))
}
