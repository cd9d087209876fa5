//! Road networks.

ghost use Rattle.std.specs.Prelude.{◌≡◌, ℕ, ◌+◌, ◌*◌, ◌/◌, ◌^◌, ◌<◌, ◌≤◌, IfOk, IfErr, OnOk, Some, All, length, MatchOption, option_map};
ghost use Rattle.std.specs.List.{slice_get};
ghost use Rattle.edge_graph.specs.BuildCause.{IsBuildFault, IsWithinLimits};
ghost use Rattle.road_turns.specs.Departures.{vertices_from};
ghost use Rattle.road_turns.specs.Limits.{most_turns};
ghost use Rattle.road_segments.specs.Limits.{most_segments};
ghost use Rattle.edge_graph.specs.NetworkView.{copies_at, graph_of, network_of, stands, vertices_of};
ghost use Rattle.edge_graph.specs.NetworkParts.{copies_in_map};
ghost use Rattle.edge_graph.specs.Sound.{IsSoundNetwork};
ghost use Rattle.road_turns.specs.Restrictions.{applied_rules};
ghost use Rattle.road_turns.specs.Turn.{IsSimple, exits};
ghost use Rattle.turn_rules.specs.Rules.{rules_of};
ghost use Rattle.road_segments.specs.Segment.{segments};
ghost use Rattle.geo_integer.specs.Position.{position_of};
ghost use Rattle.geo_integer.specs.Project.{position_at};
ghost use Rattle.search_graph.specs.Digraph.{IsArc};
ghost use Rattle.via_paths.specs.Expansion.{standing};
ghost use Rattle.way_profile.specs.Vehicle.{IsSpeed};

use crate::build_faults::BuildFault;
use crate::parts::{Parts, parts_of};
use crate::searched::{Arcs, copies_by_vertex, searched_graph};
use geo_integer::point_at;
use road_base::{Object, Place, Point, Words};
use road_segments::{RoadFault, Roads};
use road_turns::{Departures, Restrictions};
use search_graph::Graph;
use std::alloc::{AllocError, Global};
use std::collections::HashMap;
use std::marker::Model;
use turn_rules::{Rules, rules};
use via_paths::Barred;
use way_profile::Profile;

/// The road network of one vehicle. Contracts see the segments, the turns, the sequences of vertices that no walk may run
/// through, the vehicle's profile, and how many turn restrictions apply and how many are ignored.
pub struct Network {
    roads: Roads,
    exits: Vec<u32>,
    departures: Departures,
    /// the graph that is searched, with the copies of vertices
    graph: Graph,
    /// how many of its arcs, from the first on, are turns
    turns: u32,
    /// the sequences of vertices that no walk may run through
    forbidden: Vec<Barred>,
    /// the vertex that each copy stands for
    stands_for: Vec<u32>,
    /// the copies of each vertex that has some
    copies: HashMap<u32, Vec<u32>>,
    profile: Profile,
    applied: u64,
    ignored: u64,
}

impl Drop for Network {
    fn drop(self) {
        let Network {
            roads: _roads,
            exits: _exits,
            departures: _departures,
            graph: _graph,
            turns: _turns,
            forbidden: _forbidden,
            stands_for: _stands_for,
            copies: _copies,
            profile: _profile,
            applied: _applied,
            ignored: _ignored,
        } = self;
    }
}

impl Model for Network {
    ghost use Rattle.edge_graph.specs.NetworkView.{NetworkView};

    ghost Value = { NetworkView };

    ghost use Rattle.std.specs.Prelude.{◌*◌, length};
    ghost use Rattle.edge_graph.specs.NetworkParts.{AreNetworkParts, turns_of};
    ghost use Rattle.via_paths.specs.Forbidden.{words_in};

    ghost view = { λ n. record {
      segments = n.roads;
      turns = turns_of (2 * length n.roads) n.turns n.stands_for.items n.graph.arcs;
      forbidden = words_in n.forbidden.items;
      profile = n.profile;
      applied = n.applied;
      ignored = n.ignored;
    } };

    ghost invariant = { λ n. AreNetworkParts n.roads n.exits.items n.departures.order.items n.graph n.turns (words_in n.forbidden.items) n.stands_for.items n.copies };
}

// The segments of the roads that the vehicle may use.
fn roads_of(alloc: Global, objects: &[Object], profile: &Profile) -> Result<Roads, BuildFault>
    ensures ok { IfOk result (λ roads. roads ≡ segments objects.now profile.now) }
    ensures speeds { OnOk result (All (λ s. IsSpeed s.street.speed) (segments objects.now profile.now)) }
    ensures few { OnOk result (length (segments objects.now profile.now) ≤ most_segments) }
    ensures err { IfErr result (IsBuildFault (network_of objects.now profile.now)) }
{
    match Roads::build(alloc, objects, profile) {
        Ok(roads) => Ok(roads),
        Err(RoadFault::TooManySegments) => Err(BuildFault::TooManySegments),
        Err(RoadFault::Memory) => Err(BuildFault::Memory),
    }
}

// The turn restrictions of the map that apply to the vehicle on these roads.
fn restrictions_of(
    alloc: Global,
    objects: &[Object],
    profile: &Profile,
    roads: &Roads,
) -> Result<Restrictions, AllocError>
    ensures value { IfOk result (λ r. r ≡ applied_rules roads.now (rules_of objects.now profile.now.vehicle)) }
    ensures few { IfOk result (λ r. length r.kept + length r.along + r.ignored < 2 ^ 64) }
{
    let stated = rules(alloc, objects, profile.vehicle())?;
    Restrictions::of(alloc, stated, roads)
}

// How many restrictions apply, where so many of those over via ways do, and how many are ignored.
fn counts_of(restrictions: &Restrictions, along: u64) -> (u64, u64)
    requires few { length restrictions.now.kept + length restrictions.now.along + restrictions.now.ignored < 2 ^ 64 }
    requires along { along ≤ length restrictions.now.along }
    ensures applied { result.0 ≡ length restrictions.now.kept + along }
    ensures ignored { result.1 + along ≡ restrictions.now.ignored + length restrictions.now.along }
{
    let all = restrictions.along().len() as u64;
    let applied = restrictions.applied() + along;
    let ignored = restrictions.ignored() + (all - along);
    (applied, ignored)
}

// The vertex that a vertex of a graph with copies stands for, of `ordinary` ordinary vertices.
fn stands_at(ordinary: u32, stands_for: &[u32], q: u32) -> u32
    requires { q < ordinary + length stands_for.now }
    ensures { result ≡ standing ordinary stands_for.now q }
{
    if q < ordinary {
        q
    } else {
        stands_for[(q - ordinary) as usize]
    }
}

// The first arc from vertex `d` onto a vertex that stands for vertex `e`, if there is one.
fn arc_between(graph: &Graph, ordinary: u32, stands_for: &[u32], d: u32, e: u32) -> Option<u32>
    requires vertex { d < graph.now.vertices }
    requires all { graph.now.vertices ≤ ordinary + length stands_for.now }
    ensures { MatchOption result ((i q : ℕ) → IsArc graph.now i d q → ¬ (standing ordinary stands_for.now q ≡ e)) (λ i. (q : ℕ) × IsArc graph.now i d q × (standing ordinary stands_for.now q ≡ e)) }
{
    let row = graph.out(d);
    for place in 0..row.len() {
        let arc = row.get(place);
        let head = graph.arc(arc).1;
        if stands_at(ordinary, stands_for, head) == e {
            return Some(arc);
        }
    }
    None
}

// The copies of a vertex, none where it has no entry.
fn copies_of(copies: &HashMap<u32, Vec<u32>>, v: u32) -> &[u32]
    ensures { result.now ≡ copies_in_map copies.now v }
{
    match copies.get(&v) {
        Some(list) => list.as_slice(),
        None => &[],
    }
}

impl Network {
    /// The network of the roads among these objects that the vehicle of the profile may use, under the turn
    /// restrictions among them that apply to it. `TooManySegments` comes where it has more than 2^24
    /// segments, `TooManyVias` where it has no more than that but the searched graph more than 2^20 copies of
    /// vertices, `TooManyTurns` where it has no more than these but that graph more than 2^27 arcs; `Memory` at any
    /// time.
    pub fn build(
        alloc: Global,
        objects: &[Object],
        profile: &Profile,
    ) -> Result<Network, BuildFault>
        ensures ok { IfOk result (λ network. network ≡ network_of objects.now profile.now) }
        ensures limits { OnOk result (IsWithinLimits (network_of objects.now profile.now)) }
        ensures err { IfErr result (IsBuildFault (network_of objects.now profile.now)) }
    {
        let roads = roads_of(alloc, objects, profile)?;
        let departures = Departures::of(alloc, &roads)?;
        let restrictions = restrictions_of(alloc, objects, profile, &roads)?;
        let Parts {
            exits,
            found,
            turns,
            arcs,
        } = parts_of(alloc, &roads, &departures, &restrictions)?;
        let (applied, ignored) = counts_of(&restrictions, found.applied);
        let ordinary = 2 * roads.len();
        let copies = copies_by_vertex(alloc, ordinary, &arcs.stands_for)?;
        let Arcs { list, stands_for } = arcs;
        let vertices = ordinary + stands_for.len() as u32;
        let Ok(graph) = searched_graph(alloc, vertices, list) else {
            return Err(BuildFault::Memory);
        };
        let profile = profile.try_clone(alloc)?;
        Ok(Network {
            roads,
            exits,
            departures,
            graph,
            turns,
            forbidden: found.groups,
            stands_for,
            copies,
            profile,
            applied,
            ignored,
        })
    }

    /// How many segments there are. They are numbered from 0: way by way in ascending order of the ways'
    /// ids, and in a way in the order of its nodes.
    pub fn segments(&self) -> u32
        ensures value { result ≡ length self.now.segments }
        ensures few { result ≤ most_segments }
        ensures fits { result ≤ 2 ^ 26 }
    {
        self.roads.len()
    }

    /// The id of the node where vertex `v` begins. Vertex 2s is segment s in the order of its way, vertex
    /// 2s + 1 the same segment the other way round.
    pub fn tail(&self, v: u32) -> i64
        requires { v < 2 * length self.now.segments }
        ensures { option_map (λ x. x.tail) (slice_get (vertices_of self.now) v) ≡ Some result }
    {
        self.roads.tail(v)
    }

    /// The id of the node where vertex `v` ends.
    pub fn head(&self, v: u32) -> i64
        requires { v < 2 * length self.now.segments }
        ensures { option_map (λ x. x.head) (slice_get (vertices_of self.now) v) ≡ Some result }
    {
        self.roads.head(v)
    }

    /// The `name` of the way of vertex `v`, or an empty text.
    pub fn name(&self, v: u32) -> &str
        requires { v < 2 * length self.now.segments }
        ensures value { option_map (λ x. x.name) (slice_get (vertices_of self.now) v) ≡ Some result.now }
        ensures by_segment { option_map (λ s. s.street.name) (slice_get self.now.segments (v / 2)) ≡ Some result.now }
    {
        self.roads.name(v)
    }

    /// The names of the classes of the way of vertex `v`, in the order in which the profile has them.
    pub fn classes(&self, v: u32) -> &Words
        requires { v < 2 * length self.now.segments }
        ensures { option_map (λ x. x.classes) (slice_get (vertices_of self.now) v) ≡ Some result.now }
    {
        self.roads.classes(v)
    }

    /// Whether the vehicle may use vertex `v`.
    pub fn permitted(&self, v: u32) -> bool
        requires { v < 2 * length self.now.segments }
        ensures { option_map (λ x. x.permitted) (slice_get (vertices_of self.now) v) ≡ Some result }
    {
        self.roads.permitted(v)
    }

    /// Whether a traffic signal stands at the node where vertex `v` ends.
    pub fn signal(&self, v: u32) -> bool
        requires { v < 2 * length self.now.segments }
        ensures { option_map (λ x. x.signal) (slice_get (vertices_of self.now) v) ≡ Some result }
    {
        self.roads.signal(v)
    }

    /// The vehicle's speed on vertex `v` in thousandths of km/h.
    pub fn speed(&self, v: u32) -> u32
        requires { v < 2 * length self.now.segments }
        ensures value { option_map (λ x. x.speed) (slice_get (vertices_of self.now) v) ≡ Some result }
        ensures in_range { IsSpeed result }
    {
        self.roads.speed(v)
    }

    /// Whether the way of vertex `v` is a roundabout.
    pub fn round(&self, v: u32) -> bool
        requires { v < 2 * length self.now.segments }
        ensures { option_map (λ x. x.round) (slice_get (vertices_of self.now) v) ≡ Some result }
    {
        self.roads.round(v)
    }

    /// How many permitted vertices leave the head of vertex `v`, the other direction of its own segment
    /// not counted.
    pub fn exits(&self, v: u32) -> u32
        requires { v < 2 * length self.now.segments }
        ensures { result ≡ exits (vertices_of self.now) v }
    {
        self.exits[v as usize]
    }

    /// The vertices that leave a node, permitted or not, in ascending order of their numbers. None leaves an
    /// id that is no node's.
    pub fn leaving(&self, node: i64) -> &[u32]
        ensures { result.now ≡ vertices_from (vertices_of self.now) node }
    {
        self.departures.leaving(&self.roads, node)
    }

    /// The points where a segment begins and ends, in the order of its way.
    pub fn ends(&self, segment: u32) -> (Point, Point)
        requires { segment < length self.now.segments }
        ensures { option_map (λ s. (s.from, s.to)) (slice_get self.now.segments segment) ≡ Some result }
    {
        self.roads.ends(segment)
    }

    /// The point at a place, rounded to the nearest microdegree.
    pub fn point(&self, place: Place) -> Point
        requires segment { place.segment < length self.now.segments }
        requires at { place.at ≤ 1024 }
        ensures { option_map (λ s. position_at (position_of s.from) (position_of s.to) place.at) (slice_get self.now.segments place.segment) ≡ Some (position_of result) }
    {
        let (from, to) = self.roads.ends(place.segment);
        point_at(from, to, place.at)
    }

    /// How many turns there are.
    pub fn turns(&self) -> u32
        ensures value { result ≡ length self.now.turns }
        ensures few { result ≤ most_turns }
    {
        self.turns
    }

    /// The number of the turn from vertex `d` onto vertex `e`, or None exactly where there is none. There is
    /// at most one.
    pub fn turn(&self, d: u32, e: u32) -> Option<u32>
        requires { d < 2 * length self.now.segments }
        ensures value { MatchOption result ((i : ℕ) → ¬ (slice_get self.now.turns i ≡ Some (d, e))) (λ i. slice_get self.now.turns i ≡ Some (d, e)) }
        ensures simple { IsSimple self.now.turns }
    {
        arc_between(&self.graph, 2 * self.roads.len(), &self.stands_for, d, e)
    }

    /// The graph that is searched: its first vertices are those of the network, each of which stands for itself, and behind
    /// them come copies. Arc i is turn i for each turn, and its head stands for that of the turn; behind them come the arcs
    /// out of the copies. The turns are numbered from 0 by the vertex that they leave and then by the one that they enter,
    /// and no two are from one vertex onto the same other. There are no more vertices than a graph that is searched may have.
    pub fn graph(&self) -> &Graph
        ensures value { result.now ≡ graph_of self.now }
        ensures limits { IsWithinLimits self.now }
        ensures few { (graph_of self.now).vertices ≤ 2 ^ 27 }
        ensures sound { IsSoundNetwork self.now }
    {
        &self.graph
    }

    /// The vertex of the network that a vertex of the searched graph stands for.
    pub fn stands_for(&self, q: u32) -> u32
        requires { q < (graph_of self.now).vertices }
        ensures value { result ≡ stands self.now q }
        ensures ordinary { result < 2 * length self.now.segments }
    {
        stands_at(2 * self.roads.len(), &self.stands_for, q)
    }

    /// The copies of vertex `v` in the searched graph, in ascending order of their numbers.
    pub fn copies(&self, v: u32) -> &[u32]
        ensures { result.now ≡ copies_at self.now v }
    {
        copies_of(&self.copies, v)
    }

    /// The profile of the vehicle.
    pub fn profile(&self) -> &Profile
        ensures { result.now ≡ self.now.profile }
    {
        &self.profile
    }

    /// How many turn restrictions of the map apply: those that do not except the vehicle, have a known
    /// value and the members that it asks for, and whose ways each have a segment in the network that begins
    /// or ends at their `via` node.
    pub fn applied(&self) -> u64
        ensures { result ≡ self.now.applied }
    {
        self.applied
    }

    /// How many other turn restrictions of the map, that do not except the vehicle, are ignored.
    pub fn ignored(&self) -> u64
        ensures { result ≡ self.now.ignored }
    {
        self.ignored
    }
}
