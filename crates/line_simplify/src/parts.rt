//! At which points parts of a line were split.
//!
//! A line that goes to and fro comes along the same points again and again. A part whose points lie where those of an
//! earlier one do is split at the same of them. To see that points are the same takes a small share of the time in
//! which it is found how far off a chord they lie.

ghost use Rattle.std.specs.Prelude.{◌≡◌, ℕ, ◌<◌, ◌≤◌, ◌-◌, IfOk, IfSome, IsTrue, List, Some, length, map};
ghost use Rattle.std.specs.List.{slice_get};
ghost use Rattle.geo_integer.specs.Position.{position_of};
ghost use Rattle.road_base.specs.declared.coordinates.Point.{Point};
ghost use Rattle.line_simplify.specs.Splits.{AreSplits, IsSplit};

use crate::bounds::Chord;
use crate::finds::{are_same, place_of};
use road_base::Point;
use std::alloc::{AllocError, Global};

/// How many parts are remembered at most. It is a prime number.
const MOST_PARTS: usize = 2039;

/// Of how many points at least a part is remembered. Fewer are looked at again as soon.
const FEW_POINTS: usize = 8;

/// The part of a line from one point to another, by their numbers, and which of the points between it was split at,
/// by its number among these; none where it was not split.
#[derive(Clone, Copy)]
pub(crate) struct Part {
    pub(crate) from: usize,
    pub(crate) to: usize,
    pub(crate) split: Option<usize>,
}

/// What was looked through last, each part at a place that its chord and its length give.
pub(crate) struct Parts {
    pub(crate) parts: Vec<Part>,
}

impl Drop for Parts {
    fn drop(self) {
        let Parts { parts: _parts } = self;
    }
}

impl Parts {
    // Nothing is split yet of a line of so many points.
    pub(crate) fn none(alloc: Global, count: usize) -> Result<Parts, AllocError>
        ensures { IfOk result (λ parts. (limit : ℕ) (points : List Point) → 0 < length points → AreSplits limit points parts.parts.items) }
    {
        let nothing = Part {
            from: 0,
            to: 0,
            split: None,
        };
        let places = (count / 16).min(MOST_PARTS);
        Ok(Parts {
            parts: vec![in alloc; nothing; places]?,
        })
    }

    // An earlier part whose points lie where those of this one do, if one is remembered.
    pub(crate) fn alike(&self, points: &[Point], from: usize, to: usize) -> Option<Part>
        requires ordered { from < to }
        requires inside { to < length points.now }
        ensures { IfSome result (λ part. (limit : ℕ) → AreSplits limit points.now self.now.parts.items → IsSplit limit points.now from to part.split) }
    {
        if to - from < FEW_POINTS || self.parts.len() == 0 {
            return None;
        }
        let line = chord_of(points, from, to);
        let part = self.parts[place_of(line, to - from, self.parts.len())];
        if !is_earlier(part, from, to) || !are_same(chord_of(points, part.from, part.to), line) {
            return None;
        }
        if lie_alike(&points[part.from + 1..part.to], &points[from + 1..to]) {
            Some(part)
        } else {
            None
        }
    }

    // Remembers a part with this chord.
    pub(crate) fn keep(&mut self, part: Part, line: Chord)
        requires { part.from < part.to }
        ensures { (limit : ℕ) (points : List Point) → AreSplits limit points self.old.parts.items → IsSplit limit points part.from part.to part.split → AreSplits limit points self.new.parts.items }
    {
        let count = part.to - part.from;
        if count >= FEW_POINTS && self.parts.len() > 0 {
            let place = place_of(line, count, self.parts.len());
            self.parts[place] = part;
        }
    }
}

// The chord of the part from one point to another.
pub(crate) fn chord_of(points: &[Point], from: usize, to: usize) -> Chord
    requires from { from < length points.now }
    requires to { to < length points.now }
    ensures from { slice_get points.now from ≡ Some result.from }
    ensures to { slice_get points.now to ≡ Some result.to }
{
    Chord {
        from: points[from],
        to: points[to],
    }
}

// Whether a part ends where another one begins, or before, and has as many points.
fn is_earlier(part: Part, from: usize, to: usize) -> bool
    requires { from < to }
    ensures ordered { IsTrue result → part.from < part.to }
    ensures before { IsTrue result → part.to ≤ from }
    ensures count { IsTrue result → part.to - part.from ≡ to - from }
{
    part.from < part.to && part.to <= from && part.to - part.from == to - from
}

// Whether points lie at the same places.
fn lie_alike(one: &[Point], other: &[Point]) -> bool
    ensures { IsTrue result → map position_of one.now ≡ map position_of other.now }
{
    one == other
}
