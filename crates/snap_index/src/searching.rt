//! The search of a grid for the first segments.
//!
//! It looks at all that lies within reach of a point, and farther as long as too little is found there. Each look
//! goes once through the order of the index, and passes by what lies farther away than the reach, or than all that
//! the slots have.

ghost use Rattle.std.specs.Prelude.{◌≡◌, ℕ, ◌+◌, ◌*◌, ◌/◌, ◌<◌, ◌≤◌, ◌^◌, ◌⊎◌, IfSome, IsTrue, List, length};
ghost use Rattle.std.specs.List.{slice_get};
ghost use Rattle.geo_integer.specs.Position.{position_of};
ghost use Rattle.snap_index.specs.Candidates.{AreSlots, Ascend, LastIs, Stands, StandsOn};
ghost use Rattle.snap_index.specs.Index.{AreJudged, HasAt, IsFarther, IsFrame, IsIndexOf, IsJudged, IsLeastCosine, IsLineBeyond, IsPassed};
ghost use Rattle.snap_index.specs.declared.grids.SegmentEnds.{SegmentEnds};

use crate::candidates::{Candidate, candidate_on, put};
use crate::extents::{Extent, extent_of, is_beyond};
use crate::filters::Heading;
use crate::frames::{frame_of, is_outside};
use crate::grids::{Grid, SegmentEnds};
use crate::indexes::Index;
use crate::keeping::has_direction;
use geo_integer::cosine;
use metric_make::BaseMetric;
use road_base::Point;

/// How far a search reaches: the square of a distance, and a cosine that is no greater than that half-way to any
/// spot within it. None where it reaches everywhere.
#[derive(Clone, Copy)]
pub(crate) struct Window {
    pub(crate) cosine: u32,
    pub(crate) reach: Option<u128>,
}

/// How many microdegrees of latitude the first look reaches, some 70 metres.
const NARROWEST: u32 = 600;

/// The microdegrees of latitude from pole to pole.
const WIDEST: u32 = 180_000_000;

/// What a search goes by: the lines of a grid with their index, what is open, and which place and heading is asked for.
#[derive(Clone, Copy)]
pub(crate) struct SnapQuery<'a> {
    pub(crate) lines: &'a [SegmentEnds],
    pub(crate) index: &'a Index,
    pub(crate) base: &'a BaseMetric,
    pub(crate) from: Point,
    pub(crate) heading: Option<Heading>,
}

// Puts the first segments with an open direction of the heading into the slots, none of which is filled yet.
pub(crate) fn search(
    grid: &Grid,
    base: &BaseMetric,
    from: Point,
    heading: Option<Heading>,
    slots: &mut [Option<Candidate>],
)
    requires weights { 2 * length grid.now ≤ length base.now.weights.vertex }
    requires slots { AreSlots grid.now base.now.weights heading (position_of from) slots.old }
    ensures slots { AreSlots grid.now base.now.weights heading (position_of from) slots.new }
    ensures judged { (s : ℕ) → IsJudged grid.now base.now.weights heading (position_of from) None slots.new s }
{
    let lines = grid.ends();
    let index = grid.index();
    let query = SnapQuery {
        lines,
        index,
        base,
        from,
        heading,
    };
    fill(&query, slots);
}

// Looks farther and farther, until the slots have the first segments.
fn fill(query: &SnapQuery, slots: &mut [Option<Candidate>])
    requires index { IsIndexOf query.now.lines.now query.now.index.now }
    requires weights { 2 * length query.now.lines.now ≤ length query.now.base.now.weights.vertex }
    requires slots { AreSlots query.now.lines.now query.now.base.now.weights query.now.heading (position_of query.now.from) slots.old }
    ensures slots { AreSlots query.now.lines.now query.now.base.now.weights query.now.heading (position_of query.now.from) slots.new }
    ensures judged { (s : ℕ) → IsJudged query.now.lines.now query.now.base.now.weights query.now.heading (position_of query.now.from) None slots.new s }
{
    let mut width = NARROWEST;
    for _ in 0..20 {
        if look_within(query, width, slots) {
            return;
        }
        width = next_width(width, last_remoteness(slots));
    }
    let everywhere = Window {
        cosine: 0,
        reach: None,
    };
    look(query, everywhere, slots);
}

// Puts the first segments within so many microdegrees of latitude into the slots. It tells whether nothing
// farther away can come before these.
fn look_within(query: &SnapQuery, width: u32, slots: &mut [Option<Candidate>]) -> bool
    requires width { width ≤ 180000000 }
    requires index { IsIndexOf query.now.lines.now query.now.index.now }
    requires weights { 2 * length query.now.lines.now ≤ length query.now.base.now.weights.vertex }
    requires slots { AreSlots query.now.lines.now query.now.base.now.weights query.now.heading (position_of query.now.from) slots.old }
    ensures slots { AreSlots query.now.lines.now query.now.base.now.weights query.now.heading (position_of query.now.from) slots.new }
    ensures judged { IsTrue result → (s : ℕ) → IsJudged query.now.lines.now query.now.base.now.weights query.now.heading (position_of query.now.from) None slots.new s }
{
    let reach = reach_of(width);
    let window = Window {
        cosine: least_cosine(query.from, width),
        reach: Some(reach),
    };
    look(query, window, slots);
    is_enough(last_remoteness(slots), reach)
}

// Whether all slots are filled, with what lies within reach.
fn is_enough(last: Option<u128>, reach: u128) -> bool
    ensures { IsTrue result → (n : ℕ) × (last ≡ Some n) × (n ≤ reach) }
{
    match last {
        None => false,
        Some(last) => last <= reach,
    }
}

// The square of a distance by its microdegrees of latitude.
fn reach_of(width: u32) -> u128
    requires { width ≤ 180000000 }
    ensures { result ≡ width * 65536 * (width * 65536) }
{
    let distance = u128::from(width) * 65536;
    distance * distance
}

// The cosine at the farthest latitude that is half-way to a spot within so many microdegrees of latitude.
fn least_cosine(from: Point, width: u32) -> u32
    requires { width ≤ 180000000 }
    ensures { IsLeastCosine (position_of from) result (Some (width * 65536 * (width * 65536))) }
{
    let farthest = from.lat.unsigned_abs() + (width + 1) / 2;
    cosine(farthest.min(90_000_000) as i32)
}

// How far the next look reaches: as far as what was found, or else twice as far.
fn next_width(width: u32, last: Option<u128>) -> u32
    ensures { result ≤ 180000000 }
{
    match last {
        None => width.saturating_mul(2).min(WIDEST),
        Some(last) => (last.isqrt() / 65536 + 1).min(u128::from(WIDEST)) as u32,
    }
}

// How remote the last one of all slots is; None where one isn't filled, or there are none.
fn last_remoteness(slots: &[Option<Candidate>]) -> Option<u128>
    ensures { IfSome result (λ last. LastIs last slots.now) }
{
    if slots.is_empty() {
        return None;
    }
    let Some(last) = slots[slots.len() - 1] else {
        return None;
    };
    Some(last.remoteness)
}

// Puts the first segments within reach into the slots: looks at all that aren't passed by.
fn look(query: &SnapQuery, window: Window, slots: &mut [Option<Candidate>])
    requires index { IsIndexOf query.now.lines.now query.now.index.now }
    requires weights { 2 * length query.now.lines.now ≤ length query.now.base.now.weights.vertex }
    requires cosine { IsLeastCosine (position_of query.now.from) window.cosine window.reach }
    requires slots { AreSlots query.now.lines.now query.now.base.now.weights query.now.heading (position_of query.now.from) slots.old }
    ensures slots { AreSlots query.now.lines.now query.now.base.now.weights query.now.heading (position_of query.now.from) slots.new }
    ensures judged { (s : ℕ) → IsJudged query.now.lines.now query.now.base.now.weights query.now.heading (position_of query.now.from) window.reach slots.new s }
{
    let index = query.index;
    let mut frame = frame_over(query.from, window, slots);
    let mut at = 0;
    while at < index.order.len() {
        let passed = passed_by(index, frame, at);
        if passed > 0 {
            at += passed;
        } else {
            frame = look_through(query, window, frame, at, slots);
            at += 16;
        }
    }
}

// Looks at the segments of 16 numbers of the order, and gives the frame that is left.
fn look_through(
    query: &SnapQuery,
    window: Window,
    frame: Extent,
    first: usize,
    slots: &mut [Option<Candidate>],
) -> Extent
    requires index { IsIndexOf query.now.lines.now query.now.index.now }
    requires first { first < length query.now.index.now.order.items }
    requires weights { 2 * length query.now.lines.now ≤ length query.now.base.now.weights.vertex }
    requires cosine { IsLeastCosine (position_of query.now.from) window.cosine window.reach }
    requires slots { AreSlots query.now.lines.now query.now.base.now.weights query.now.heading (position_of query.now.from) slots.old }
    requires frame { IsFrame (position_of query.now.from) window.cosine window.reach slots.old frame }
    ensures slots { AreSlots query.now.lines.now query.now.base.now.weights query.now.heading (position_of query.now.from) slots.new }
    ensures stay { StandsOn slots.old slots.new }
    ensures frame { IsFrame (position_of query.now.from) window.cosine window.reach slots.new result }
    ensures judged { AreJudged query.now.lines.now query.now.base.now.weights query.now.heading (position_of query.now.from) window.reach query.now.index.now.order.items first (first + 16) slots.new }
{
    let index = query.index;
    let far = farthest(window.reach, slots);
    if is_leaf_beyond(&index.leaves, query.from, window.cosine, far, first) {
        return frame;
    }
    let end = index.order.len().min(first + 16);
    let mut left = frame;
    let mut at = first;
    while at < end {
        left = look_at(query, window, left, at, slots);
        at += 1;
    }
    left
}

// Looks at the segment at a number of the order, or passes by it, and gives the frame that is left.
fn look_at(
    query: &SnapQuery,
    window: Window,
    frame: Extent,
    at: usize,
    slots: &mut [Option<Candidate>],
) -> Extent
    requires index { IsIndexOf query.now.lines.now query.now.index.now }
    requires at { at < length query.now.index.now.order.items }
    requires weights { 2 * length query.now.lines.now ≤ length query.now.base.now.weights.vertex }
    requires cosine { IsLeastCosine (position_of query.now.from) window.cosine window.reach }
    requires slots { AreSlots query.now.lines.now query.now.base.now.weights query.now.heading (position_of query.now.from) slots.old }
    requires frame { IsFrame (position_of query.now.from) window.cosine window.reach slots.old frame }
    ensures slots { AreSlots query.now.lines.now query.now.base.now.weights query.now.heading (position_of query.now.from) slots.new }
    ensures stay { StandsOn slots.old slots.new }
    ensures frame { IsFrame (position_of query.now.from) window.cosine window.reach slots.new result }
    ensures judged { AreJudged query.now.lines.now query.now.base.now.weights query.now.heading (position_of query.now.from) window.reach query.now.index.now.order.items at (at + 1) slots.new }
{
    let lines = query.lines;
    let index = query.index;
    let segment = index.order[at];
    let line = lines[segment as usize];
    let extent = extent_of(line);
    if is_outside(frame, extent) {
        return frame;
    }
    let far = farthest(window.reach, slots);
    if is_beyond(query.from, window.cosine, far, extent) {
        return frame;
    }
    let last = last_remoteness(slots);
    consider(query, segment, slots);
    if last_remoteness(slots) == last {
        return frame;
    }
    frame_over(query.from, window, slots)
}

// Puts a segment into its slot, if it has an open direction of the heading.
fn consider(query: &SnapQuery, segment: u32, slots: &mut [Option<Candidate>])
    requires segment { segment < length query.now.lines.now }
    requires few { length query.now.lines.now < 2 ^ 30 }
    requires weights { 2 * length query.now.lines.now ≤ length query.now.base.now.weights.vertex }
    requires slots { AreSlots query.now.lines.now query.now.base.now.weights query.now.heading (position_of query.now.from) slots.old }
    ensures slots { AreSlots query.now.lines.now query.now.base.now.weights query.now.heading (position_of query.now.from) slots.new }
    ensures stay { StandsOn slots.old slots.new }
    ensures judged { IsJudged query.now.lines.now query.now.base.now.weights query.now.heading (position_of query.now.from) None slots.new segment }
{
    let lines = query.lines;
    let line = lines[segment as usize];
    if !has_direction(query.base, query.heading, line, segment) {
        return;
    }
    put(candidate_on(line, query.from, segment), slots);
}

// How remote a segment can be at most that isn't passed by: the lesser of the reach and of what the last slot has.
fn farthest(reach: Option<u128>, slots: &[Option<Candidate>]) -> Option<u128>
    requires { Ascend slots.now }
    ensures { (remote s : ℕ) → IsFarther result remote → IsFarther reach remote ⊎ Stands remote s slots.now }
{
    match (reach, last_remoteness(slots)) {
        (Some(reach), Some(last)) => Some(reach.min(last)),
        (None, last) => last,
        (reach, None) => reach,
    }
}

// The frame outside of which nothing can come into the slots.
fn frame_over(from: Point, window: Window, slots: &[Option<Candidate>]) -> Extent
    requires { Ascend slots.now }
    ensures { IsFrame (position_of from) window.cosine window.reach slots.now result }
{
    frame_of(from, window.cosine, farthest(window.reach, slots))
}

// How many numbers of the order can be passed by from one on, since all lines there lie outside of a frame.
fn passed_by(index: &Index, frame: Extent, at: usize) -> usize
    requires { at < 2 ^ 63 }
    ensures passed { (lines : List SegmentEnds) (i s : ℕ) (line : SegmentEnds) → IsIndexOf lines index.now → at ≤ i → i < at + result
        → slice_get index.now.order.items i ≡ Some s → slice_get lines s ≡ Some line → IsPassed frame line }
    ensures bound { result ≤ 4096 }
{
    if is_passed(&index.groups, frame, at, 4096) {
        return 4096;
    }
    if is_passed(&index.blocks, frame, at, 256) {
        return 256;
    }
    if is_passed(&index.leaves, frame, at, 16) {
        return 16;
    }
    0
}

// Whether this is the first of so many numbers that have one of these extents, and it lies outside of a frame.
fn is_passed(extents: &[Extent], frame: Extent, at: usize, size: usize) -> bool
    requires { 0 < size }
    ensures { IsTrue result → (i : ℕ) (line : SegmentEnds) → at ≤ i → i < at + size → HasAt extents.now (i / size) line → IsPassed frame line }
{
    if at % size != 0 || at / size >= extents.len() {
        return false;
    }
    let extent = extents[at / size];
    is_outside(frame, extent)
}

// Whether this is the first of 16 numbers that have one of these extents, and it lies beyond.
fn is_leaf_beyond(leaves: &[Extent], from: Point, cosine: u32, far: Option<u128>, at: usize) -> bool
    ensures { IsTrue result → (i : ℕ) (line : SegmentEnds) → at ≤ i → i < at + 16 → HasAt leaves.now (i / 16) line → IsLineBeyond (position_of from) cosine far line }
{
    if at % 16 != 0 || at / 16 >= leaves.len() {
        return false;
    }
    let extent = leaves[at / 16];
    is_beyond(from, cosine, far, extent)
}
