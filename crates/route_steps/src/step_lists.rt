//! Lists of steps.

ghost use Rattle.std.specs.Prelude.{◌≡◌};

use crate::intersection_lists::Intersections;
use crate::maneuvers::Maneuver;
use road_base::{Points, Text};
use search_graph::WeightDurLen;
use std::marker::Model;

/// A part of a walk, from where the driver is told what to do to where that comes next: what it costs, the points
/// along it, the name of the road (empty where it has none), what is told at its begin, and the intersections on it:
/// that at its begin and those at the nodes before its end; the arrival has one of its own.
pub struct Step {
    pub cost: WeightDurLen,
    pub points: Points,
    pub name: Text,
    pub maneuver: Maneuver,
    pub intersections: Intersections,
}

impl Drop for Step {
    fn drop(self) {
        let Step {
            cost: _cost,
            points: _points,
            name: _name,
            maneuver: _maneuver,
            intersections: _intersections,
        } = self;
    }
}

/// Steps in their order, which contracts see as a list.
pub struct Steps {
    inner: Vec<Step>,
}

impl Drop for Steps {
    fn drop(self) {
        let Steps { inner: _inner } = self;
    }
}

impl Model for Steps {
    ghost use Rattle.std.specs.Prelude.{List};
    ghost use Rattle.route_steps.specs.declared.step_lists.Step.{Step};

    ghost Value = { List Step };

    ghost view = { λ steps. steps.inner.items };
}

impl Steps {
    /// The list of a `Vec`.
    pub fn of(inner: Vec<Step>) -> Steps
        ensures { result ≡ inner.items }
    {
        Steps { inner }
    }

    /// The steps, in their order.
    pub fn as_slice(&self) -> &[Step]
        ensures { result.now ≡ self.now }
    {
        &self.inner
    }
}
