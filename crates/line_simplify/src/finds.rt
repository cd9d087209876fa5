//! How far off chords their farthest points were found.
//!
//! A line that goes to and fro is split by the same chords again and again: behind each split the same end is left, and
//! the new chord has the ends of one before. No point that is left lies farther off it than the farthest did then.

ghost use Rattle.std.specs.Prelude.{◌≡◌, ℕ, ◌<◌, ◌≤◌, IfOk, IsTrue, List};
ghost use Rattle.geo_integer.specs.Position.{position_of};
ghost use Rattle.road_base.specs.declared.coordinates.Point.{Point};
ghost use Rattle.line_simplify.specs.Finds.{AreFinds, AreWithin};

use crate::bounds::{Chord, FARTHEST};
use road_base::Point;
use std::alloc::{AllocError, Global};

/// How many chords are remembered at most. It is a prime number.
const MOST_FINDS: usize = 1021;

/// Of how many points at least a chord is remembered. Fewer are looked at again as soon.
const FEW_POINTS: usize = 64;

/// The square of the distance of the farthest point off a chord, of those before the point at `end`.
#[derive(Clone, Copy)]
pub(crate) struct Find {
    pub(crate) line: Chord,
    pub(crate) end: usize,
    pub(crate) most: u128,
}

/// What was found last, each at a place that its chord and its end give.
pub(crate) struct Finds {
    pub(crate) finds: Vec<Find>,
}

impl Drop for Finds {
    fn drop(self) {
        let Finds { finds: _finds } = self;
    }
}

impl Finds {
    // Nothing is found yet off a line of so many points, of which this is one.
    pub(crate) fn none(alloc: Global, point: Point, count: usize) -> Result<Finds, AllocError>
        ensures { IfOk result (λ finds. (points : List Point) (from : ℕ) → AreFinds points from finds.finds.items) }
    {
        let nothing = Find {
            line: Chord {
                from: point,
                to: point,
            },
            end: 0,
            most: 0,
        };
        let places = (count / 16).min(MOST_FINDS);
        Ok(Finds {
            finds: vec![in alloc; nothing; places]?,
        })
    }

    // What no point that is left before the one at `end` lies farther off this chord than.
    pub(crate) fn most(&self, line: Chord, end: usize) -> u128
        ensures { (points : List Point) (from : ℕ) → AreFinds points from self.now.finds.items → AreWithin points from end line result }
    {
        if self.finds.len() == 0 {
            return FARTHEST;
        }
        let find = self.finds[place_of(line, end, self.finds.len())];
        if find.end == end && are_same(find.line, line) {
            find.most
        } else {
            FARTHEST
        }
    }

    // Remembers what was found among so many points.
    pub(crate) fn keep(&mut self, find: Find, count: usize)
        ensures { (points : List Point) (from : ℕ) → AreFinds points from self.old.finds.items → AreWithin points from find.end find.line find.most → AreFinds points from self.new.finds.items }
    {
        if count >= FEW_POINTS && self.finds.len() > 0 {
            let place = place_of(find.line, find.end, self.finds.len());
            self.finds[place] = find;
        }
    }
}

// At which of so many places a chord is remembered, with the number of its last point or of all.
pub(crate) fn place_of(line: Chord, number: usize, places: usize) -> usize
    requires { 0 < places }
    ensures { result < places }
{
    let east = line.from.lon.unsigned_abs() as usize;
    let north = line.from.lat.unsigned_abs() as usize;
    (east * 31 + north * 7 + number % 65536) % places
}

// Whether two chords have the same ends.
pub(crate) fn are_same(one: Chord, other: Chord) -> bool
    ensures from { IsTrue result → position_of one.from ≡ position_of other.from }
    ensures to { IsTrue result → position_of one.to ≡ position_of other.to }
{
    one.from == other.from && one.to == other.to
}
