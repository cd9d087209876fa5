//! A part of the spots, in order along both axes.
ghost use Rattle.std.specs.Prelude.{◌≡◌, ◌<◌, length, take, drop, IfOk};
ghost use Rattle.std.specs.List.Sorted.{IsPermutation, IsSortedBy};
ghost use Rattle.cell_partition.specs.Spots.{comes_before, width, wider_axis};
ghost use Rattle.cell_partition.specs.Orders.{IsInOrder};

use crate::spot::{Axis, Spot};
use std::alloc::{AllocError, Global};

/// The spots of a part twice: in order along one axis, which is how the part stands, and
/// in order along the other.
#[derive(Clone, Copy)]
pub struct Part<'a> {
    pub axis: Axis,
    pub along: &'a [Spot],
    pub across: &'a [Spot],
}

impl<'a> Part<'a> {
    /// The part as it stands along the axis on which its spots lie further apart.
    pub fn along_wider_axis(self) -> Part<'a>
        requires in_order { IsInOrder self.axis self.along.now self.across.now }
        requires some { 0 < length self.along.now }
        ensures axis { result.axis ≡ wider_axis self.entry.along.now }
        ensures same { IsPermutation self.entry.along.now result.along.now }
        ensures in_order { IsInOrder result.axis result.along.now result.across.now }
    {
        match (self.axis, self.wider_axis()) {
            (Axis::Longitude, Axis::Latitude) | (Axis::Latitude, Axis::Longitude) => Part {
                axis: self.axis.other(),
                along: self.across,
                across: self.along,
            },
            _ => self,
        }
    }

    // The axis along which the spots lie further apart, longitude on equal widths.
    fn wider_axis(self) -> Axis
        requires in_order { IsInOrder self.axis self.along.now self.across.now }
        requires some { 0 < length self.along.now }
        ensures { result ≡ wider_axis self.entry.along.now }
    {
        if self.width(Axis::Longitude) < self.width(Axis::Latitude) {
            Axis::Latitude
        } else {
            Axis::Longitude
        }
    }

    // How far the spots lie apart along an axis: from the first in order along it to the
    // last.
    fn width(self, axis: Axis) -> i64
        requires in_order { IsInOrder self.axis self.along.now self.across.now }
        requires some { 0 < length self.along.now }
        ensures { result ≡ width axis self.entry.along.now }
    {
        let spots = self.in_order(axis);
        let first = spots[0].along(axis);
        let last = spots[spots.len() - 1].along(axis);
        i64::from(last) - i64::from(first)
    }

    // The spots in order along an axis.
    fn in_order(self, axis: Axis) -> &'a [Spot]
        requires { IsInOrder self.axis self.along.now self.across.now }
        ensures same { IsPermutation self.entry.along.now result.now }
        ensures in_order { IsSortedBy (comes_before axis) result.now }
    {
        match (self.axis, axis) {
            (Axis::Longitude, Axis::Longitude) | (Axis::Latitude, Axis::Latitude) => self.along,
            _ => self.across,
        }
    }

    /// The spots of the first `half` along the axis and those of the rest, each in order
    /// across it.
    pub fn across_halves(
        self,
        alloc: Global,
        half: usize,
    ) -> Result<(Vec<Spot>, Vec<Spot>), AllocError>
        requires in_order { IsInOrder self.axis self.along.now self.across.now }
        requires inside { half < length self.along.now }
        ensures first { IfOk result (λ halves. IsInOrder self.entry.axis (take half self.entry.along.now) halves.0.items) }
        ensures second { IfOk result (λ halves. IsInOrder self.entry.axis (drop half self.entry.along.now) halves.1.items) }
    {
        let bound = self.along[half];
        let mut first = Vec::with_capacity(alloc, half)?;
        let mut second = Vec::with_capacity(alloc, self.along.len() - half)?;
        for spot in self.across {
            if spot.comes_before(&bound, self.axis) {
                first.push(*spot)?;
            } else {
                second.push(*spot)?;
            }
        }
        Ok((first, second))
    }
}
