//! What a walk pays at each of its vertices.

ghost use Rattle.std.specs.Prelude.{◌≡◌, ℕ, ◌<◌, ◌≤◌, [], ◌∷◌, ◌++◌, All, IfOk, OnOk, length, map};
ghost use Rattle.search_graph.specs.RoadCosts.{road_cost_ops};
ghost use Rattle.road_places.specs.Paid.{cost_on, paid_along, paid_before, paid_behind, paid_between};
ghost use Rattle.road_places.specs.Places.{parts_along};

use metric_make::BaseMetric;
use road_base::Place;
use road_places::{before, parts_along};
use search_graph::{Cost, WeightDurLen};
use std::alloc::{AllocError, Global};
use std::marker::Model;

/// Costs in their order, which contracts see as a list.
pub struct Costs {
    costs: Vec<WeightDurLen>,
}

impl Drop for Costs {
    fn drop(self) {
        let Costs { costs: _costs } = self;
    }
}

impl Model for Costs {
    ghost use Rattle.std.specs.Prelude.{List};
    ghost use Rattle.search_graph.specs.declared.costs.WeightDurLen.{WeightDurLen};

    ghost Value = { List WeightDurLen };

    ghost view = { λ c. c.costs.items };
}

impl Costs {
    /// The list of a `Vec`.
    pub fn of(costs: Vec<WeightDurLen>) -> Costs
        ensures { result ≡ costs.items }
    {
        Costs { costs }
    }

    /// The costs, in their order.
    pub fn as_slice(&self) -> &[WeightDurLen]
        ensures { result.now ≡ self.now }
    {
        self.costs.as_slice()
    }
}

// What a vertex costs, or nothing where it is closed.
fn cost_on(base: &BaseMetric, v: u32) -> WeightDurLen
    requires { v < length base.now.weights.vertex }
    ensures value { result ≡ cost_on base.now.weights v }
    ensures unit { road_cost_ops.units result 1 }
{
    match base.vertex(v) {
        Some(cost) => cost,
        None => WeightDurLen::ZERO,
    }
}

// What lies of a vertex before a place along it.
fn paid_before(base: &BaseMetric, place: Place, v: u32) -> WeightDurLen
    requires in_range { v < length base.now.weights.vertex }
    requires within { place.at ≤ 1024 }
    ensures { result ≡ paid_before base.now.weights place v }
{
    before(cost_on(base, v), parts_along(place, v))
}

// What is left of a vertex behind a place along it.
fn paid_behind(base: &BaseMetric, place: Place, v: u32) -> WeightDurLen
    requires in_range { v < length base.now.weights.vertex }
    requires within { place.at ≤ 1024 }
    ensures { result ≡ paid_behind base.now.weights place v }
{
    cost_on(base, v).minus(paid_before(base, place, v))
}

// What lies of a vertex between two places along it.
fn paid_between(base: &BaseMetric, from: Place, to: Place, v: u32) -> WeightDurLen
    requires in_range { v < length base.now.weights.vertex }
    requires from { from.at ≤ 1024 }
    requires to { to.at ≤ 1024 }
    requires ahead { parts_along from v ≤ parts_along to v }
    ensures { result ≡ paid_between base.now.weights from to v }
{
    paid_before(base, to, v).minus(paid_before(base, from, v))
}

// Adds what these vertices cost.
fn push_whole(
    paid: &mut Vec<WeightDurLen>,
    base: &BaseMetric,
    vertices: &[u32],
) -> Result<(), AllocError>
    requires { All (λ v. v < length base.now.weights.vertex) vertices.now }
    ensures { OnOk result (paid.new.items ≡ paid.old.items ++ map (cost_on base.now.weights) vertices.now) }
{
    for v in vertices {
        paid.push(cost_on(base, *v))?;
    }
    Ok(())
}

/// What a walk from a place to another pays at each of its vertices; where it is one vertex alone, the first
/// place lies no farther on along it than the other. It answers an error only where memory runs out.
pub(crate) fn paid_along(
    alloc: Global,
    base: &BaseMetric,
    walk: &[u32],
    from: Place,
    to: Place,
) -> Result<Costs, AllocError>
    requires in_range { All (λ v. v < length base.now.weights.vertex) walk.now }
    requires from { from.at ≤ 1024 }
    requires to { to.at ≤ 1024 }
    requires ahead { (v : ℕ) → walk.now ≡ v ∷ [] → parts_along from v ≤ parts_along to v }
    ensures { IfOk result (λ paid. paid ≡ paid_along base.now.weights from to walk.now) }
{
    let mut paid = Vec::with_capacity(alloc, walk.len())?;
    match walk {
        [] => {}
        [only] => paid.push(paid_between(base, from, to, *only))?,
        [first, middle @ .., last] => {
            paid.push(paid_behind(base, from, *first))?;
            push_whole(&mut paid, base, middle)?;
            paid.push(paid_before(base, to, *last))?;
        }
    }
    Ok(Costs { costs: paid })
}
