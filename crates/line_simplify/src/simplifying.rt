//! Which points of a line stay.

ghost use Rattle.std.specs.Prelude.{◌≡◌, ℕ, ◌+◌, ◌<◌, ◌≤◌, ◌^◌, All, IfOk, IfSome, List, MatchOption, Some, length};
ghost use Rattle.std.specs.List.{slice_get};
ghost use Rattle.road_base.specs.declared.coordinates.Point.{Point};
ghost use Rattle.line_simplify.specs.Blocks.{AreCovered};
ghost use Rattle.line_simplify.specs.Steps.{IsFarthestAt, IsStep};
ghost use Rattle.line_simplify.specs.Simplified.{IsSimplified, limit_of, offset_of, simplified};
ghost use Rattle.line_simplify.specs.Searches.{Knows};
ghost use Rattle.line_simplify.specs.Splits.{IsSplit};

use crate::blocks::{Blocks, passed_by};
use crate::bounds::Chord;
use crate::finds::{Find, Finds};
use crate::parts::{Part, Parts, chord_of};
use geo_integer::{plane_distance, point_at, project};
use road_base::Point;
use std::alloc::{AllocError, Global};

/// The points that stay of a line with a tolerance in microdegrees of latitude, in their order. The first and
/// the last one stay. It answers an error only where memory runs out.
///
/// Each point is looked at at most once for each part that is split and in which it lies, and runs of points that
/// can't lie farther off than one that was found are passed over by their extents. Where the line goes to and fro, a
/// part is looked through no farther than to the first of the places that lie farthest off.
pub fn simplify(alloc: Global, points: &[Point], tolerance: u32) -> Result<Vec<Point>, AllocError>
    ensures value { IfOk result (λ kept. kept.items ≡ simplified tolerance points.now) }
    ensures rule { IfOk result (λ kept. IsSimplified tolerance points.now kept.items) }
    ensures only { IfOk result (λ kept. (other : List Point) → IsSimplified tolerance points.now other → other ≡ kept.items) }
{
    if points.len() < 3 {
        return Vec::from_slice(alloc, points);
    }
    let mut search = Search::of(alloc, points, tolerance)?;
    let mut kept = vec![in alloc; points[0]]?;
    let mut from = 0;
    // the points that stay behind `from`, as far as they are known: the last of them is the next one
    let mut ends = vec![in alloc; points.len() - 1]?;
    while let Some(to) = ends.pop() {
        let split = search.split(points, from, to);
        from = step(&mut kept, &mut ends, from, to, points[to], split)?;
    }
    Ok(kept)
}

// One step from the last point that stays to the next end, the point `to`, which was taken off the stack: it
// stays, or goes back where the points between are split, with the one at which they are above it. Answers which
// point is the last that stays then.
fn step(
    kept: &mut Vec<Point>,
    ends: &mut Vec<usize>,
    from: usize,
    to: usize,
    end: Point,
    split: Option<usize>,
) -> Result<usize, AllocError>
    requires { IfSome split (λ at. from + 1 + at < to) }
    ensures { IfOk result (λ next. IsStep kept.old.items kept.new.items ends.old.items ends.new.items from to end next split) }
{
    match split {
        Some(at) => {
            ends.push(to)?;
            ends.push(from + 1 + at)?;
            Ok(from)
        }
        None => {
            kept.push(end)?;
            Ok(to)
        }
    }
}

// The square of a tolerance in 65536ths.
#[tactic(auto, unfolding(crate::specs::Simplified::limit_of))]
fn limit(tolerance: u32) -> u128
    ensures { result ≡ limit_of tolerance }
{
    let wide = u128::from(tolerance) * 65536;
    wide * wide
}

/// What is known of a line: its limit, the extents of its runs, how far off chords points were found, and at which
/// points its parts were split.
struct Search {
    limit: u128,
    runs: Blocks,
    finds: Finds,
    parts: Parts,
}

impl Drop for Search {
    fn drop(self) {
        let Search {
            limit: _limit,
            runs: _runs,
            finds: _finds,
            parts: _parts,
        } = self;
    }
}

impl Search {
    // Nothing is looked through yet.
    fn of(alloc: Global, points: &[Point], tolerance: u32) -> Result<Search, AllocError>
        requires { 0 < length points.now }
        ensures { IfOk result (λ search. Knows (limit_of tolerance) points.now 0 search) }
    {
        Ok(Search {
            limit: limit(tolerance),
            runs: Blocks::of(alloc, points)?,
            finds: Finds::none(alloc, points[0], points.len())?,
            parts: Parts::none(alloc, points.len())?,
        })
    }

    // At which of the points between two the part between these is split, by its number among them; None where it is
    // not split.
    fn split(&mut self, points: &[Point], from: usize, to: usize) -> Option<usize>
        requires ordered { from < to }
        requires inside { to < length points.now }
        requires knows { Knows self.old.limit points.now from self.old }
        ensures split { IsSplit self.old.limit points.now from to result }
        ensures knows { Knows self.old.limit points.now from self.new }
    {
        if let Some(part) = self.parts.alike(points, from, to) {
            return part.split;
        }
        let line = chord_of(points, from, to);
        let reach = Reach {
            limit: self.limit,
            most: self.finds.most(line, to),
        };
        let found = farthest(&self.runs, line, &points[from + 1..to], from + 1, reach);
        let find = Find {
            line,
            end: to,
            most: found.most,
        };
        self.finds.keep(find, to - from);
        let part = Part {
            from,
            to,
            split: found.at,
        };
        self.parts.keep(part, line);
        found.at
    }
}

/// The squares of distances off a line that count: those beyond the limit. None is greater than `most`.
#[derive(Clone, Copy)]
struct Reach {
    limit: u128,
    most: u128,
}

/// Where the farthest point lies, if it lies beyond the limit, and what no point's square is above.
#[derive(Clone, Copy)]
struct Maximum {
    at: Option<usize>,
    most: u128,
}

// Of the points between the ends of a line the first of those that lie farthest off it, by its index. None where
// all lie within the limit. The points have numbers from `first` on.
fn farthest(blocks: &Blocks, line: Chord, between: &[Point], first: usize, reach: Reach) -> Maximum
    requires covered { AreCovered blocks.now first between.now }
    requires few { first + length between.now < 2 ^ 62 }
    requires reach { (i : ℕ) (p : Point) → slice_get between.now i ≡ Some p → offset_of line.from line.to p ≤ reach.most }
    ensures value { MatchOption result.at (All (λ p. offset_of line.from line.to p ≤ reach.limit) between.now) (IsFarthestAt reach.limit line.from line.to between.now) }
    ensures within { IfSome result.at (λ at. at < length between.now) }
    ensures most { All (λ p. offset_of line.from line.to p ≤ result.most) between.now }
{
    let mut most = reach.limit;
    let mut farthest = None;
    let mut at = 0;
    while at < between.len() {
        if most >= reach.most {
            return Maximum { at: farthest, most };
        }
        let passed = passed_by(blocks, line, most, first + at, between.len() - at);
        if passed > 0 {
            at += passed;
            continue;
        }
        let offset = offset(between[at], line.from, line.to);
        if offset > most {
            most = offset;
            farthest = Some(at);
        }
        at += 1;
    }
    Maximum { at: farthest, most }
}

// The square of the distance of a point from its nearest place on the line from `a` to `b`.
#[tactic(auto, unfolding(crate::specs::Simplified::offset_of))]
fn offset(point: Point, a: Point, b: Point) -> u128
    ensures { result ≡ offset_of a b point }
{
    plane_distance(point, point_at(a, b, project(point, a, b)))
}
