//! Lists of points.

ghost use Rattle.std.specs.Prelude.{◌≡◌};

use crate::coordinates::Point;
use std::marker::Model;

/// Points on the Earth in order, which contracts see as a list.
#[derive(Debug)]
pub struct Points {
    inner: Vec<Point>,
}

impl Drop for Points {
    fn drop(self) {
        let Points { inner: _inner } = self;
    }
}

impl Model for Points {
    ghost use Rattle.std.specs.Prelude.{List};
    ghost use Rattle.road_base.specs.declared.coordinates.Point.{Point};

    ghost Value = { List Point };

    ghost view = { λ points. points.inner.items };
}

impl Points {
    /// The list of a `Vec`.
    pub fn of(inner: Vec<Point>) -> Points
        ensures { result ≡ inner.items }
    {
        Points { inner }
    }

    /// The points, in their order.
    pub fn as_slice(&self) -> &[Point]
        ensures { result.now ≡ self.now }
    {
        &self.inner
    }

    /// The list as a `Vec` again.
    pub fn into_vec(self) -> Vec<Point>
        ensures { result.items ≡ self }
    {
        let Points { inner } = self;
        inner
    }
}
