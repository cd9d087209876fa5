//! The segments of a network, in flat lists.

ghost use Rattle.std.specs.Prelude.{◌≡◌, ◌*◌, ◌/◌, ◌^◌, ◌<◌, ◌≤◌, length, pos, slice_index_or, Some, option_map, All, IfErr, IfOk, OnOk};
ghost use Rattle.std.specs.List.{slice_get};
ghost use Rattle.road_segments.specs.Limits.{most_segments};
ghost use Rattle.road_segments.specs.Located.{segments_on, spot_in};
ghost use Rattle.road_segments.specs.RoadCause.{IsRoadFault};
ghost use Rattle.road_segments.specs.Rows.{AddsRows, AreRowsOf};
ghost use Rattle.road_segments.specs.Segment.{segments};
ghost use Rattle.road_segments.specs.Vertex.{vertices};
ghost use Rattle.way_profile.specs.Vehicle.{IsSpeed};

use crate::road_faults::RoadFault;
use crate::routes::{Routes, nodes_of, room_for, routes_of};
use crate::spots::{NodeUse, Spot, SpotMap, ends_between, spot_in, spots_of};
use crate::streets::Street;
use road_base::{Object, Point, Words};
use std::alloc::{AllocError, Global};
use std::marker::Model;
use way_profile::Profile;

/// A segment, by the number of its street.
#[derive(Clone, Copy)]
pub struct Row {
    pub tail: i64,
    pub head: i64,
    pub from: Point,
    pub to: Point,
    pub street: u32,
    pub at_tail: NodeUse,
    pub at_head: NodeUse,
}

/// The segments of a network: 40 bytes each, and those of a street its name and its use once.
/// Contracts see the list of segments.
pub struct Roads {
    streets: Vec<Street>,
    rows: Vec<Row>,
}

impl Drop for Roads {
    fn drop(self) {
        let Roads {
            streets: _streets,
            rows: _rows,
        } = self;
    }
}

impl Model for Roads {
    ghost use Rattle.std.specs.Prelude.{List};
    ghost use Rattle.road_segments.specs.Segment.{Segment};

    ghost Value = { List Segment };

    ghost use Rattle.road_segments.specs.Rows.{AreRows, segments_in};

    ghost view = { λ r. segments_in r.streets.items r.rows.items };

    ghost invariant = { λ r. AreRows r.streets.items r.rows.items };
}

// The spot of the first of these nodes.
fn first_spot(spots: &SpotMap, ids: &[i64]) -> Option<Spot>
    ensures { 0 < length ids.now → result ≡ spot_in spots.now (slice_index_or ids.now 0 (pos 0)) }
{
    match ids.first() {
        Some(id) => spot_in(spots, *id),
        None => None,
    }
}

// Adds the segments along these nodes of the way of a street.
fn push_along(
    rows: &mut Vec<Row>,
    spots: &SpotMap,
    street: u32,
    ids: &[i64],
) -> Result<(), AllocError>
    ensures { OnOk result (AddsRows (spot_in spots.now) street ids.now rows.old.items rows.new.items) }
{
    let mut last = first_spot(spots, ids);
    for i in 1..ids.len() {
        let next = spot_in(spots, ids[i]);
        if let Some((from, to)) = ends_between(ids[i - 1], ids[i], last, next) {
            rows.push(Row {
                tail: ids[i - 1],
                head: ids[i],
                from: from.point,
                to: to.point,
                street,
                at_tail: from.usage,
                at_head: to.usage,
            })?;
        }
        last = next;
    }
    Ok(())
}

// The rows of all routes, of which there are so many.
fn rows_of(
    alloc: Global,
    objects: &[Object],
    routes: &Routes,
    spots: &SpotMap,
    count: usize,
) -> Result<Vec<Row>, AllocError>
    requires in_range { All (λ place. place < length objects.now) routes.now.places.items }
    requires as_many { length routes.now.streets.items ≡ length routes.now.places.items }
    requires few { length routes.now.streets.items < 2 ^ 32 }
    ensures { IfOk result (λ rows. AreRowsOf (spot_in spots.now) objects.now routes.now.streets.items routes.now.places.items rows.items) }
{
    let mut rows = Vec::with_capacity(alloc, count)?;
    for (street, place) in routes.places.iter().enumerate() {
        push_along(&mut rows, spots, street as u32, nodes_of(objects, *place))?;
    }
    Ok(rows)
}

impl Roads {
    /// The segments of the roads among these objects that the vehicle of the profile may use.
    /// `TooManySegments` comes only where they are more than a network may have; `Memory` at any time.
    pub fn build(alloc: Global, objects: &[Object], profile: &Profile) -> Result<Roads, RoadFault>
        ensures ok { IfOk result (λ roads. roads ≡ segments objects.now profile.now) }
        ensures speeds { OnOk result (All (λ s. IsSpeed s.street.speed) (segments objects.now profile.now)) }
        ensures few { OnOk result (length (segments objects.now profile.now) ≤ most_segments) }
        ensures err { IfErr result (IsRoadFault (length (segments objects.now profile.now))) }
    {
        let spots = spots_of(alloc, objects, profile)?;
        let routes = routes_of(alloc, objects, profile, &spots)?;
        let Some(room) = room_for(objects, &routes, &spots) else {
            return Err(RoadFault::TooManySegments);
        };
        let roads = Roads::of(alloc, objects, routes, &spots, room)?;
        Ok(roads)
    }

    // The segments of these routes, of which there are so many, no more than a network may have.
    fn of(
        alloc: Global,
        objects: &[Object],
        routes: Routes,
        spots: &SpotMap,
        count: usize,
    ) -> Result<Roads, AllocError>
        requires in_range { All (λ place. place < length objects.now) routes.places.items }
        requires as_many { length routes.streets.items ≡ length routes.places.items }
        requires few_streets { length routes.streets.items < 2 ^ 32 }
        requires few { length (segments_on (spot_in spots.now) objects.now routes.streets.items routes.places.items) ≤ most_segments }
        ensures { IfOk result (λ roads. roads ≡ segments_on (spot_in spots.now) objects.now routes.streets.items routes.places.items) }
    {
        let rows = rows_of(alloc, objects, &routes, spots, count)?;
        Ok(Roads {
            streets: routes.streets,
            rows,
        })
    }

    /// How many segments there are.
    #[tactic(auto, unfolding(crate::specs::Limits::most_segments))]
    pub fn len(&self) -> u32
        ensures value { result ≡ length self.now }
        ensures few { result ≤ most_segments }
        ensures fits { result ≤ 2 ^ 26 }
    {
        self.rows.len() as u32
    }

    /// The points where segment `s` begins and ends.
    pub fn ends(&self, s: u32) -> (Point, Point)
        requires { s < length self.now }
        ensures { option_map (λ x. (x.from, x.to)) (slice_get self.now s) ≡ Some result }
    {
        let row = &self.rows[s as usize];
        (row.from, row.to)
    }

    /// The id of the node where vertex `v` begins.
    pub fn tail(&self, v: u32) -> i64
        requires { v < 2 * length self.now }
        ensures { option_map (λ x. x.tail) (slice_get (vertices self.now) v) ≡ Some result }
    {
        let row = &self.rows[v as usize / 2];
        if v % 2 == 0 { row.tail } else { row.head }
    }

    /// The id of the node where vertex `v` ends.
    pub fn head(&self, v: u32) -> i64
        requires { v < 2 * length self.now }
        ensures { option_map (λ x. x.head) (slice_get (vertices self.now) v) ≡ Some result }
    {
        let row = &self.rows[v as usize / 2];
        if v % 2 == 0 { row.head } else { row.tail }
    }

    /// Whether the vehicle may not pass the node where vertex `v` ends.
    pub fn closed(&self, v: u32) -> bool
        requires { v < 2 * length self.now }
        ensures { option_map (λ x. x.closed) (slice_get (vertices self.now) v) ≡ Some result }
    {
        let row = &self.rows[v as usize / 2];
        if v % 2 == 0 {
            row.at_head.closed
        } else {
            row.at_tail.closed
        }
    }

    /// Whether a traffic signal stands at the node where vertex `v` ends.
    pub fn signal(&self, v: u32) -> bool
        requires { v < 2 * length self.now }
        ensures { option_map (λ x. x.signal) (slice_get (vertices self.now) v) ≡ Some result }
    {
        let row = &self.rows[v as usize / 2];
        if v % 2 == 0 {
            row.at_head.signal
        } else {
            row.at_tail.signal
        }
    }

    /// Whether the vehicle may use vertex `v`.
    pub fn permitted(&self, v: u32) -> bool
        requires { v < 2 * length self.now }
        ensures { option_map (λ x. x.permitted) (slice_get (vertices self.now) v) ≡ Some result }
    {
        let street = &self.streets[self.rows[v as usize / 2].street as usize];
        if v % 2 == 0 {
            street.forward
        } else {
            street.backward
        }
    }

    /// The id of the way of vertex `v`.
    pub fn way(&self, v: u32) -> i64
        requires { v < 2 * length self.now }
        ensures { option_map (λ x. x.way) (slice_get (vertices self.now) v) ≡ Some result }
    {
        self.streets[self.rows[v as usize / 2].street as usize].way
    }

    /// The name of the way of vertex `v`.
    pub fn name(&self, v: u32) -> &str
        requires { v < 2 * length self.now }
        ensures value { option_map (λ x. x.name) (slice_get (vertices self.now) v) ≡ Some result.now }
        ensures by_segment { option_map (λ s. s.street.name) (slice_get self.now (v / 2)) ≡ Some result.now }
    {
        self.streets[self.rows[v as usize / 2].street as usize]
            .name
            .as_str()
    }

    /// The names of the classes of the way of vertex `v`, in the order of the profile.
    pub fn classes(&self, v: u32) -> &Words
        requires { v < 2 * length self.now }
        ensures { option_map (λ x. x.classes) (slice_get (vertices self.now) v) ≡ Some result.now }
    {
        &self.streets[self.rows[v as usize / 2].street as usize].classes
    }

    /// The vehicle's speed on vertex `v` in thousandths of km/h.
    pub fn speed(&self, v: u32) -> u32
        requires { v < 2 * length self.now }
        ensures { option_map (λ x. x.speed) (slice_get (vertices self.now) v) ≡ Some result }
    {
        self.streets[self.rows[v as usize / 2].street as usize].speed
    }

    /// Whether the way of vertex `v` is a roundabout.
    pub fn round(&self, v: u32) -> bool
        requires { v < 2 * length self.now }
        ensures { option_map (λ x. x.round) (slice_get (vertices self.now) v) ≡ Some result }
    {
        self.streets[self.rows[v as usize / 2].street as usize].round
    }
}
