//! Whether one vertex may follow another, found without the list of turns.

ghost use Rattle.std.specs.Prelude.{◌≡◌, false, ◌*◌, ◌<◌, All, length};
ghost use Rattle.std.specs.Option.{option_map_or};
ghost use Rattle.std.specs.List.{slice_get};
ghost use Rattle.road_turns.specs.Fans.{AreExits};
ghost use Rattle.road_turns.specs.Turn.{is_way_on};
ghost use Rattle.via_restrictions.specs.ViaParts.{forbid_onto};
ghost use Rattle.via_restrictions.specs.ViaWays.{follow, may_follow, meet};
ghost use Rattle.road_segments.specs.Vertex.{vertices};

use road_segments::Roads;
use road_turns::{Restrictions, must_turn_back, other_way};

/// What tells whether one vertex may follow another: a few look-ups for each two.
#[derive(Clone, Copy, Drop)]
pub struct Turning<'a> {
    pub roads: &'a Roads,
    pub restrictions: &'a Restrictions,
    /// how many exits each vertex has
    pub counts: &'a [u32],
}

impl<'a> Turning<'a> {
    // Whether what stands at the head of a vertex allows to go on to another.
    fn is_way_on(&self, d: u32, e: u32) -> bool
        requires vertex { d < 2 * length self.now.roads.now }
        requires counts { AreExits (vertices self.now.roads.now) self.now.counts.now }
        ensures { option_map_or (λ x. is_way_on (vertices self.now.roads.now) (d, x) e) (slice_get (vertices self.now.roads.now) d) false ≡ result }
    {
        if e == other_way(d) {
            must_turn_back(self.roads, d, self.counts[d as usize])
        } else {
            !self.roads.closed(d)
        }
    }

    /// Whether vertex `e` begins at the node where vertex `d` ends.
    pub fn meet(&self, d: u32, e: u32) -> bool
        requires from { d < 2 * length self.now.roads.now }
        requires onto { e < 2 * length self.now.roads.now }
        ensures { result ≡ meet (vertices self.now.roads.now) d e }
    {
        self.roads.tail(e) == self.roads.head(d)
    }

    // Whether a restriction at the head of a vertex forbids to go on to another.
    fn is_forbidden(&self, d: u32, e: u32) -> bool
        requires from { d < 2 * length self.now.roads.now }
        requires onto { e < 2 * length self.now.roads.now }
        ensures { result ≡ forbid_onto (vertices self.now.roads.now) self.now.restrictions.now.kept d e }
    {
        let (node, from, to) = (self.roads.head(d), self.roads.way(d), self.roads.way(e));
        self.restrictions
            .forbid_turn(node, from, to, e == other_way(d))
    }

    /// Whether vertex `e` may follow vertex `d`.
    pub fn may_follow(&self, d: u32, e: u32) -> bool
        requires from { d < 2 * length self.now.roads.now }
        requires onto { e < 2 * length self.now.roads.now }
        requires counts { AreExits (vertices self.now.roads.now) self.now.counts.now }
        ensures { result ≡ may_follow (vertices self.now.roads.now) self.now.restrictions.now.kept d e }
    {
        self.roads.permitted(d)
            && self.roads.permitted(e)
            && self.meet(d, e)
            && self.is_way_on(d, e)
            && !self.is_forbidden(d, e)
    }

    /// Whether each of these vertices but the first may follow the one before it.
    pub fn follow(&self, path: &[u32]) -> bool
        requires vertices { All (λ v. v < 2 * length self.now.roads.now) path.now }
        requires counts { AreExits (vertices self.now.roads.now) self.now.counts.now }
        ensures { result ≡ follow (vertices self.now.roads.now) self.now.restrictions.now.kept path.now }
    {
        for i in 1..path.len() {
            if !self.may_follow(path[i - 1], path[i]) {
                return false;
            }
        }
        true
    }
}
