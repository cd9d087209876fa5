//! Packed walks.

ghost use Rattle.std.specs.Prelude.{◌≡◌};

use cell_frame::Cell;
use std::marker::Model;

/// A hop of a packed walk.
#[derive(Clone, Copy, Debug, PartialEq, Eq)]
pub struct Hop {
    /// the vertex that it leads to
    pub to: u32,
    /// the cell whose shortcut it is, or none where it is an arc
    pub by: Option<Cell>,
}

/// A list of hops, which contracts see as that list.
pub struct Hops {
    hops: Vec<Hop>,
}

impl Drop for Hops {
    fn drop(self) {
        let Hops { hops: _hops } = self;
    }
}

impl Model for Hops {
    ghost use Rattle.std.specs.Prelude.{List};
    ghost use Rattle.overlay_query.specs.declared.packed.Hop.{Hop};

    ghost Value = { List Hop };

    ghost view = { λ h. h.hops.items };
}

impl Hops {
    /// The hops of a vector.
    pub fn of(hops: Vec<Hop>) -> Hops
        ensures { result ≡ hops.items }
    {
        Hops { hops }
    }

    /// The hops, in their order.
    pub fn as_slice(&self) -> &[Hop]
        ensures { result.now ≡ self.now }
    {
        self.hops.as_slice()
    }
}

/// A walk whose hops are arcs and shortcuts. A shortcut stands for a cheapest walk inside its cell.
pub struct PackedWalk {
    /// the vertex at which it begins
    pub first: u32,
    /// the hops from there, one or more; the last is an arc
    pub hops: Hops,
}

impl Drop for PackedWalk {
    fn drop(self) {
        let PackedWalk {
            first: _first,
            hops: _hops,
        } = self;
    }
}

/// A cheapest walk to a target, packed.
#[derive(Drop)]
pub struct PackedFound<C> {
    /// what is paid at the start, for all arcs, for the vertices in the middle and at the target
    pub cost: C,
    /// the walk from a start to the target
    pub packed: PackedWalk,
}
