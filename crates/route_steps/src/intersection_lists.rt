//! Lists of intersections.

ghost use Rattle.std.specs.Prelude.{◌≡◌};

use road_base::Point;
use search_graph::Numbers;
use std::marker::Model;

/// Yes or no for each of several things in their order, which contracts see as a list.
pub struct Flags {
    inner: Vec<bool>,
}

impl Drop for Flags {
    fn drop(self) {
        let Flags { inner: _inner } = self;
    }
}

impl Model for Flags {
    ghost use Rattle.std.specs.Prelude.{Bool, List};

    ghost Value = { List Bool };

    ghost view = { λ flags. flags.inner.items };
}

impl Flags {
    /// The list of a `Vec`.
    pub fn of(inner: Vec<bool>) -> Flags
        ensures { result ≡ inner.items }
    {
        Flags { inner }
    }

    /// The flags, in their order.
    pub fn as_slice(&self) -> &[bool]
        ensures { result.now ≡ self.now }
    {
        &self.inner
    }
}

/// A node of a walk and what leaves it, or the place where a walk begins or ends.
pub struct Intersection {
    pub location: Point,
    /// the bearings of all vertices that leave the node, permitted or not, in ascending order and then by the
    /// vertices' numbers, in whole degrees below 360
    pub bearings: Numbers,
    /// for each of them whether it may follow the vertex by which the walk comes
    pub entry: Flags,
    /// which of them leads back along the vertex by which the walk comes; None where the walk begins
    pub enter: Option<u32>,
    /// which of them the walk goes on by; None where it ends
    pub leave: Option<u32>,
}

impl Drop for Intersection {
    fn drop(self) {
        let Intersection {
            location: _location,
            bearings: _bearings,
            entry: _entry,
            enter: _enter,
            leave: _leave,
        } = self;
    }
}

/// Intersections in their order, which contracts see as a list.
pub struct Intersections {
    inner: Vec<Intersection>,
}

impl Drop for Intersections {
    fn drop(self) {
        let Intersections { inner: _inner } = self;
    }
}

impl Model for Intersections {
    ghost use Rattle.std.specs.Prelude.{List};
    ghost use Rattle.route_steps.specs.declared.intersection_lists.Intersection.{Intersection};

    ghost Value = { List Intersection };

    ghost view = { λ intersections. intersections.inner.items };
}

impl Intersections {
    /// The list of a `Vec`.
    pub fn of(inner: Vec<Intersection>) -> Intersections
        ensures { result ≡ inner.items }
    {
        Intersections { inner }
    }

    /// The intersections, in their order.
    pub fn as_slice(&self) -> &[Intersection]
        ensures { result.now ≡ self.now }
    {
        &self.inner
    }
}
