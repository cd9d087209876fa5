//! The halving rule, on vertices in order along both axes.
ghost use Rattle.std.specs.Prelude.{◌≡◌, ◌+◌, ◌<◌, ◌≤◌, List, length, IfOk, OnOk};
ghost use Rattle.cell_partition.specs.declared.spot.Spot.{Spot};
ghost use Rattle.cell_partition.specs.Bounds.{joined};
ghost use Rattle.cell_partition.specs.Halving.{IsHalved, AreHalved};
ghost use Rattle.cell_partition.specs.Orders.{AreApart, IsInOrder};
ghost use Rattle.cell_partition.specs.Parts.{AreStanding, AreParts, AreAdded};

use crate::part::Part;
use crate::parts::Parts;
use std::alloc::{AllocError, Global};

/// How parts are halved on: where memory comes from, and how many spots a part may keep.
#[derive(Clone, Copy)]
pub struct Halving {
    pub alloc: Global,
    pub limit: u32,
}

impl Halving {
    /// Halves each part on, until parts have at most `limit` spots. The spots are sorted
    /// before the first cut.
    pub fn halved(self, parts: Parts) -> Result<Parts, AllocError>
        ghost above: { List (List Spot) }
        requires some { 1 ≤ self.limit }
        requires fits { length parts.along.items < 4294967296 }
        requires apart { AreApart parts.along.items }
        requires standing { AreStanding parts above }
        ensures { IfOk result (λ halves. (next : List (List Spot)) × AreHalved self.limit above next × AreStanding halves next) }
    {
        if parts.along.len() <= self.limit as usize {
            return Ok(parts);
        }
        if parts.axes.is_empty() {
            return self.halve_each(&parts.sorted(self.alloc)?);
        }
        self.halve_each(&parts)
    }

    // Halves each part on.
    fn halve_each(self, parts: &Parts) -> Result<Parts, AllocError>
        ghost above: { List (List Spot) }
        requires some { 1 ≤ self.limit }
        requires fits { length parts.now.along.items < 4294967296 }
        requires in_order { AreParts parts.now above }
        ensures { IfOk result (λ halves. (next : List (List Spot)) × AreHalved self.limit above next × AreParts halves next) }
    {
        let mut halves = Parts::none(self.alloc, parts.along.len())?;
        for number in 0..parts.axes.len() {
            self.halve(parts.part(number), &mut halves)?;
        }
        Ok(halves)
    }

    // Halves a part until its parts have at most `limit` spots, and adds those.
    fn halve(self, part: Part<'_>, parts: &mut Parts) -> Result<(), AllocError>
        requires some { 1 ≤ self.limit }
        requires in_order { IsInOrder part.axis part.along.now part.across.now }
        requires fits { length parts.old.along.items + length part.along.now < 4294967296 }
        ensures { OnOk result ((halves : List (List Spot)) × IsHalved self.limit part.entry.along.now halves × AreAdded parts.old parts.new halves) }
    {
        if part.along.len() <= self.limit as usize {
            return parts.push(part);
        }
        let part = part.along_wider_axis();
        let half = part.along.len() - part.along.len() / 2;
        let (first, second) = part.across_halves(self.alloc, half)?;
        let first = Part {
            across: &first,
            along: &part.along[..half],
            ..part
        };
        let second = Part {
            across: &second,
            along: &part.along[half..],
            ..part
        };
        self.halve(first, parts)?;
        self.halve(second, parts)
    }
}
