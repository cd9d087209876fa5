//! Walks on roads.

ghost use Rattle.std.specs.Prelude.{◌≡◌};

use search_graph::WeightDurLen;
use std::marker::Model;

/// The vertices of a walk, in their order: each is a segment in one direction. Contracts see the list.
pub struct Walk {
    vertices: Vec<u32>,
}

impl Drop for Walk {
    fn drop(self) {
        let Walk {
            vertices: _vertices,
        } = self;
    }
}

impl Model for Walk {
    ghost use Rattle.std.specs.Prelude.{ℕ, List};

    ghost Value = { List ℕ };

    ghost view = { λ walk. walk.vertices.items };
}

impl Walk {
    /// The walk over these vertices.
    pub fn of(vertices: Vec<u32>) -> Walk
        ensures { result ≡ vertices.items }
    {
        Walk { vertices }
    }

    /// The vertices, in their order.
    pub fn as_slice(&self) -> &[u32]
        ensures { result.now ≡ self.now }
    {
        self.vertices.as_slice()
    }
}

/// A walk from a place to another, and what it costs.
#[derive(Drop)]
pub struct Route {
    pub cost: WeightDurLen,
    pub walk: Walk,
}
