//! Candidates for a place, and the first of them in a list of slots.

ghost use Rattle.std.specs.Prelude.{◌≡◌, IsTrue, MatchBool};
ghost use Rattle.geo_integer.specs.Position.{position_of};
ghost use Rattle.snap_index.specs.Candidates.{IsOnLine, is_before, is_same, with_candidate};

use crate::grids::SegmentEnds;
use geo_integer::{plane_distance, point_at, project};
use road_base::{Place, Point};

/// The nearest place on a segment, where it lies, and the square of its distance.
#[derive(Clone, Copy)]
pub(crate) struct Candidate {
    pub(crate) place: Place,
    pub(crate) spot: Point,
    pub(crate) remoteness: u128,
}

// The nearest place on a line, which is this segment.
#[tactic(auto, unfolding(crate::specs::Nearest::remoteness))]
pub(crate) fn candidate_on(line: SegmentEnds, from: Point, segment: u32) -> Candidate
    ensures { IsOnLine line (position_of from) segment result }
{
    let at = project(from, line.from, line.to);
    let spot = point_at(line.from, line.to, at);
    Candidate {
        place: Place { segment, at },
        spot,
        remoteness: plane_distance(from, spot),
    }
}

// Puts a candidate into its slot. Those behind it move on by one, and the last one falls out.
pub(crate) fn put(candidate: Candidate, slots: &mut [Option<Candidate>])
    ensures { slots.new ≡ with_candidate candidate slots.old }
{
    let mut moved = candidate;
    for i in 0..slots.len() {
        let Some(there) = slots[i] else {
            slots[i] = Some(moved);
            return;
        };
        if precedes(moved, there) {
            slots[i] = Some(moved);
            moved = there;
        } else if is_one(moved, there) {
            return;
        }
    }
}

// Whether one candidate comes before another: the less remote one, the one on the segment of the lower number
// where neither is.
fn precedes(one: Candidate, other: Candidate) -> bool
    ensures { result ≡ is_before one other }
{
    one.remoteness < other.remoteness
        || one.remoteness == other.remoteness && one.place.segment < other.place.segment
}

// Whether two candidates are the nearest place on one segment.
fn is_one(one: Candidate, other: Candidate) -> bool
    ensures { result ≡ is_same one other }
{
    one.remoteness == other.remoteness && one.place.segment == other.place.segment
}
