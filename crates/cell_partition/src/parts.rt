//! The parts of a level, one behind another.
ghost use Rattle.std.specs.Prelude.{◌≡◌, ℕ, ◌+◌, ◌-◌, ◌<◌, ◌≤◌, List, [], ◌∷◌, ◌++◌, length, IfOk, OnOk};
ghost use Rattle.std.specs.List.Sorted.{IsPermutation};
ghost use Rattle.cell_partition.specs.declared.spot.Spot.{Spot};
ghost use Rattle.cell_partition.specs.declared.spot.Axis.TheVariants.{Longitude};
ghost use Rattle.cell_partition.specs.Spots.{spots_of};
ghost use Rattle.cell_partition.specs.Bounds.{joined, bounds_of, cell_at};
ghost use Rattle.cell_partition.specs.Orders.{AreApart, IsInOrder};

use crate::part::Part;
use crate::sorting::{sorted, spots_of};
use crate::spot::{Axis, Spot};
use std::alloc::{AllocError, Global};

/// The spots of a level twice, part by part: each part in order along its axis, by which
/// it was cut off, and at the same place in order across it. Before the first cut there is
/// one part, in the order of the vertices; it has no axis, and nothing lies across.
#[derive(Drop)]
pub struct Parts {
    pub along: Vec<Spot>,
    pub across: Vec<Spot>,
    pub bounds: Vec<u32>,
    pub axes: Vec<Axis>,
}

impl Parts {
    ghost use Rattle.cell_partition.specs.Parts.{AreParts, AreAdded};

    /// All vertices at their midpoints as one part, not yet sorted.
    pub fn whole(alloc: Global, midpoints: &[(i32, i32)]) -> Result<Parts, AllocError>
        requires { length midpoints.now < 4294967296 }
        ensures along { IfOk result (λ parts. parts.along.items ≡ spots_of midpoints.now) }
        ensures bounds { IfOk result (λ parts. parts.bounds.items ≡ 0 ∷ length midpoints.now ∷ []) }
        ensures axes { IfOk result (λ parts. parts.axes.items ≡ []) }
    {
        let along = spots_of(alloc, midpoints)?;
        let bounds = vec![in alloc; 0, midpoints.len() as u32]?;
        Ok(Parts {
            along,
            across: Vec::new(alloc),
            bounds,
            axes: Vec::new(alloc),
        })
    }

    /// No part, and room for so many spots.
    pub fn none(alloc: Global, count: usize) -> Result<Parts, AllocError>
        ensures { IfOk result (λ parts. AreParts parts []) }
    {
        let along = Vec::with_capacity(alloc, count)?;
        let across = Vec::with_capacity(alloc, count)?;
        let bounds = vec![in alloc; 0]?;
        Ok(Parts {
            along,
            across,
            bounds,
            axes: Vec::new(alloc),
        })
    }

    /// The one part that was not yet sorted, in order along both axes.
    pub fn sorted(self, alloc: Global) -> Result<Parts, AllocError>
        requires apart { AreApart self.along.items }
        requires bounds { self.bounds.items ≡ 0 ∷ length self.along.items ∷ [] }
        requires axes { self.axes.items ≡ [] }
        ensures same { IfOk result (λ parts. IsPermutation self.along.items parts.along.items) }
        ensures in_order { IfOk result (λ parts. AreParts parts (parts.along.items ∷ [])) }
    {
        let Parts {
            along,
            across: _across,
            bounds,
            axes: _axes,
        } = self;
        let across = sorted(Vec::from_slice(alloc, &along)?, Axis::Latitude);
        let along = sorted(along, Axis::Longitude);
        let axes = vec![in alloc; Axis::Longitude]?;
        Ok(Parts {
            along,
            across,
            bounds,
            axes,
        })
    }

    /// The part of this number, counted from 0.
    pub fn part(&self, number: usize) -> Part<'_>
        ghost parts: { List (List Spot) }
        requires in_order { AreParts self.now parts }
        requires inside { number < length parts }
        ensures part { result.along.now ≡ cell_at parts number }
        ensures in_order { IsInOrder result.axis result.along.now result.across.now }
    {
        let bounds = self.bounds.as_slice();
        let axes = self.axes.as_slice();
        let start = bounds[number] as usize;
        let end = bounds[number + 1] as usize;
        Part {
            axis: axes[number],
            along: &self.along[start..end],
            across: &self.across[start..end],
        }
    }

    /// Adds a part behind the others.
    pub fn push(&mut self, part: Part<'_>) -> Result<(), AllocError>
        requires in_order { IsInOrder part.axis part.along.now part.across.now }
        requires fits { length self.old.along.items + length part.along.now < 4294967296 }
        ensures { OnOk result (AreAdded self.old self.new (part.entry.along.now ∷ [])) }
    {
        self.along.extend_from_slice(part.along)?;
        self.across.extend_from_slice(part.across)?;
        self.bounds.push(self.along.len() as u32)?;
        self.axes.push(part.axis)?;
        Ok(())
    }
}
