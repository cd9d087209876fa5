//! The sequences of vertices that restrictions over via ways forbid.

ghost use Rattle.std.specs.Prelude.{◌≡◌, ℕ, ◌<◌, ◌≤◌, ◌*◌, ◌++◌, List, ◌==◌, All, Some, IfOk, OnOk, filter, length};
ghost use Rattle.std.specs.List.{Contains, count_by, slice_get};
ghost use Rattle.turn_rules.specs.Rules.{ViaRule};
ghost use Rattle.via_restrictions.specs.ViaParts.{AreReached, AreViaParts, AddsReached, comes_from};
ghost use Rattle.road_turns.specs.DepartureParts.{AreDepartures};
ghost use Rattle.road_turns.specs.Fans.{AreExits};
ghost use Rattle.via_restrictions.specs.ViaWays.{applied_along, course, ends_along, ends_of, exits_of, first_of, forbidden_on, forbidden_words, forbids_some, is_onto, is_shut, starts, words_along, words_under};
ghost use Rattle.via_paths.specs.Forbidden.{HasPath, IsBelow, last_of, words_in};
ghost use Rattle.road_segments.specs.Vertex.{vertices};

use crate::courses::Courses;
use crate::turning::Turning;
use crate::via_ways::ViaWays;
use crate::way_sets::WaySets;
use road_segments::Roads;
use road_turns::{Departures, Restrictions, other_way};
use std::alloc::{AllocError, Global};
use turn_rules::ViaRestriction;
use via_paths::Barred;

/// What the sequences of restrictions over via ways are found by.
#[derive(Drop)]
pub struct Vias<'a> {
    pub turning: Turning<'a>,
    pub departures: &'a Departures,
    pub rules: &'a [ViaRestriction],
    pub ways: ViaWays,
    pub courses: Courses,
}

/// The sequences in groups, and how many of the restrictions forbid one.
#[derive(Drop)]
pub struct Found {
    pub groups: Vec<Barred>,
    pub applied: u64,
}

impl<'a> Vias<'a> {
    // Whether the other direction of a vertex is of this way, and may be followed by the first vertex of a path.
    fn comes_from(&self, from: i64, first: u32, e: u32) -> bool
        requires parts { AreViaParts self.now.turning.roads.now self.now.turning.restrictions.now.kept self.now.turning.counts.now self.now.departures.now.order.items self.now.rules.now self.now.ways.ways self.now.ways.along self.now.courses.numbers self.now.courses.forbidden.ways self.now.courses.only.firsts }
        requires first { first < 2 * length self.now.turning.roads.now }
        requires vertex { e < 2 * length self.now.turning.roads.now }
        ensures { result ≡ comes_from (vertices self.now.turning.roads.now) self.now.turning.restrictions.now.kept from first e }
    {
        self.turning.roads.way(e) == from && self.turning.may_follow(other_way(e), first)
    }

    // The vertices of a way from which one may come onto a path that begins with this vertex.
    fn starts(&self, alloc: Global, from: i64, first: u32) -> Result<Vec<u32>, AllocError>
        requires parts { AreViaParts self.now.turning.roads.now self.now.turning.restrictions.now.kept self.now.turning.counts.now self.now.departures.now.order.items self.now.rules.now self.now.ways.ways self.now.ways.along self.now.courses.numbers self.now.courses.forbidden.ways self.now.courses.only.firsts }
        requires first { first < 2 * length self.now.turning.roads.now }
        ensures value { IfOk result (λ list. (path : List ℕ) → first_of path ≡ first → list.items ≡ starts (vertices self.now.turning.roads.now) self.now.turning.restrictions.now.kept from path) }
        ensures below { IfOk result (λ list. All (λ v. v < 2 * length self.now.turning.roads.now) list.items) }
    {
        let node = self.turning.roads.tail(first);
        let leaving = self.departures.leaving(self.turning.roads, node);
        let mut starts = Vec::new(alloc);
        for e in leaving {
            if self.comes_from(from, first, *e) {
                starts.push(other_way(*e))?;
            }
        }
        Ok(starts)
    }

    // The vertices onto which one may leave a path that ends with this vertex.
    fn exits(&self, alloc: Global, last: u32) -> Result<Vec<u32>, AllocError>
        requires parts { AreViaParts self.now.turning.roads.now self.now.turning.restrictions.now.kept self.now.turning.counts.now self.now.departures.now.order.items self.now.rules.now self.now.ways.ways self.now.ways.along self.now.courses.numbers self.now.courses.forbidden.ways self.now.courses.only.firsts }
        requires last { last < 2 * length self.now.turning.roads.now }
        ensures value { IfOk result (λ list. (path : List ℕ) → last_of path ≡ last → list.items ≡ exits_of (vertices self.now.turning.roads.now) self.now.turning.restrictions.now.kept path) }
        ensures below { IfOk result (λ list. All (λ v. v < 2 * length self.now.turning.roads.now) list.items) }
    {
        let node = self.turning.roads.head(last);
        let leaving = self.departures.leaving(self.turning.roads, node);
        let mut exits = Vec::new(alloc);
        for e in leaving {
            if self.turning.may_follow(last, *e) {
                exits.push(*e)?;
            }
        }
        Ok(exits)
    }

    // Those of these vertices onto which the restrictions of a course forbid to go on.
    fn shut(&self, alloc: Global, number: usize, exits: &[u32]) -> Result<Vec<u32>, AllocError>
        requires parts { AreViaParts self.now.turning.roads.now self.now.turning.restrictions.now.kept self.now.turning.counts.now self.now.departures.now.order.items self.now.rules.now self.now.ways.ways self.now.ways.along self.now.courses.numbers self.now.courses.forbidden.ways self.now.courses.only.firsts }
        requires exits { All (λ v. v < 2 * length self.now.turning.roads.now) exits.now }
        ensures value { IfOk result (λ list. list.items ≡ filter (is_onto (vertices self.now.turning.roads.now) (is_shut self.now.rules.now number)) exits.now) }
        ensures below { IfOk result (λ list. All (λ v. v < 2 * length self.now.turning.roads.now) list.items) }
    {
        let mut ends = Vec::new(alloc);
        for e in exits {
            if self.courses.shut(number, self.turning.roads.way(*e)) {
                ends.push(*e)?;
            }
        }
        Ok(ends)
    }

    // Adds the ways of vertices to those onto which one comes along a course.
    fn reach(&self, reached: &mut WaySets, number: usize, exits: &[u32]) -> Result<(), AllocError>
        requires exits { All (λ v. v < 2 * length self.now.turning.roads.now) exits.now }
        ensures { OnOk result (AddsReached (vertices self.now.turning.roads.now) exits.now number reached.old.ways reached.old.firsts reached.new.ways reached.new.firsts) }
    {
        for e in exits {
            reached.add(number, self.turning.roads.way(*e))?;
        }
        Ok(())
    }

    // Adds the sequences along a path of a course, and the ways onto which one comes along it.
    fn push_path(
        &self,
        groups: &mut Vec<Barred>,
        reached: &mut WaySets,
        alloc: Global,
        number: usize,
        path: &[u32],
    ) -> Result<(), AllocError>
        requires parts { AreViaParts self.now.turning.roads.now self.now.turning.restrictions.now.kept self.now.turning.counts.now self.now.departures.now.order.items self.now.rules.now self.now.ways.ways self.now.ways.along self.now.courses.numbers self.now.courses.forbidden.ways self.now.courses.only.firsts }
        requires number { number < length self.now.rules.now }
        requires path { 1 ≤ length path.now }
        requires below { All (λ v. v < 2 * length self.now.turning.roads.now) path.now }
        ensures words { OnOk result ((rule : ViaRule) → slice_get self.now.rules.now number ≡ Some rule → words_in groups.new.items ≡ words_in groups.old.items ++ words_along (vertices self.now.turning.roads.now) self.now.turning.restrictions.now.kept self.now.rules.now (number, rule) path.now) }
        ensures paths { OnOk result (All HasPath groups.old.items → All HasPath groups.new.items) }
        ensures below { OnOk result (All (IsBelow (2 * length self.now.turning.roads.now)) groups.old.items → All (IsBelow (2 * length self.now.turning.roads.now)) groups.new.items) }
        ensures reached { OnOk result ((rule : ViaRule) → slice_get self.now.rules.now number ≡ Some rule → AddsReached (vertices self.now.turning.roads.now) (ends_along (vertices self.now.turning.roads.now) self.now.turning.restrictions.now.kept rule path.now) number reached.old.ways reached.old.firsts reached.new.ways reached.new.firsts) }
    {
        let starts = self.starts(alloc, self.rules[number].from(), path[0])?;
        if starts.is_empty() {
            return Ok(());
        }
        let exits = self.exits(alloc, path[path.len() - 1])?;
        self.reach(reached, number, &exits)?;
        let ends = self.shut(alloc, number, &exits)?;
        if !ends.is_empty() {
            let path = Vec::from_slice(alloc, path)?;
            groups.push(Barred { starts, path, ends })?;
        }
        Ok(())
    }

    // Adds those of a course.
    fn push_course(
        &self,
        groups: &mut Vec<Barred>,
        reached: &mut WaySets,
        alloc: Global,
        number: usize,
    ) -> Result<(), AllocError>
        requires parts { AreViaParts self.now.turning.roads.now self.now.turning.restrictions.now.kept self.now.turning.counts.now self.now.departures.now.order.items self.now.rules.now self.now.ways.ways self.now.ways.along self.now.courses.numbers self.now.courses.forbidden.ways self.now.courses.only.firsts }
        requires number { number < length self.now.rules.now }
        ensures words { OnOk result ((rule : ViaRule) → slice_get self.now.rules.now number ≡ Some rule → words_in groups.new.items ≡ words_in groups.old.items ++ words_under (vertices self.now.turning.roads.now) self.now.turning.restrictions.now.kept self.now.rules.now (number, rule)) }
        ensures paths { OnOk result (All HasPath groups.old.items → All HasPath groups.new.items) }
        ensures below { OnOk result (All (IsBelow (2 * length self.now.turning.roads.now)) groups.old.items → All (IsBelow (2 * length self.now.turning.roads.now)) groups.new.items) }
        ensures reached { OnOk result ((rule : ViaRule) → slice_get self.now.rules.now number ≡ Some rule → AddsReached (vertices self.now.turning.roads.now) (ends_of (vertices self.now.turning.roads.now) self.now.turning.restrictions.now.kept rule) number reached.old.ways reached.old.firsts reached.new.ways reached.new.firsts) }
    {
        let via = self.rules[number].via();
        let paths = self.ways.paths(alloc, &self.turning, via)?;
        for i in 0..paths.len() {
            self.push_path(groups, reached, alloc, number, &paths[i])?;
        }
        Ok(())
    }

    // Whether a restriction forbids to go on onto a way that is reached along its course.
    fn forbids_some(
        &self,
        alloc: Global,
        reached: &WaySets,
        rule: &ViaRestriction,
    ) -> Result<bool, AllocError>
        requires parts { AreViaParts self.now.turning.roads.now self.now.turning.restrictions.now.kept self.now.turning.counts.now self.now.departures.now.order.items self.now.rules.now self.now.ways.ways self.now.ways.along self.now.courses.numbers self.now.courses.forbidden.ways self.now.courses.only.firsts }
        requires reached { AreReached self.now.turning.roads.now self.now.turning.restrictions.now.kept self.now.rules.now (length self.now.rules.now) reached.now.ways reached.now.firsts }
        requires rule { Contains self.now.rules.now rule.now }
        ensures { IfOk result (λ some. some ≡ forbids_some (vertices self.now.turning.roads.now) self.now.turning.restrictions.now.kept rule.now) }
    {
        let number = self.courses.number(alloc, self.rules, rule)?;
        if rule.only() {
            Ok(reached.has_other(number, rule.to()))
        } else {
            Ok(reached.has(number, rule.to()))
        }
    }

    // How many restrictions forbid a sequence.
    fn count(&self, alloc: Global, reached: &WaySets) -> Result<u64, AllocError>
        requires parts { AreViaParts self.now.turning.roads.now self.now.turning.restrictions.now.kept self.now.turning.counts.now self.now.departures.now.order.items self.now.rules.now self.now.ways.ways self.now.ways.along self.now.courses.numbers self.now.courses.forbidden.ways self.now.courses.only.firsts }
        requires reached { AreReached self.now.turning.roads.now self.now.turning.restrictions.now.kept self.now.rules.now (length self.now.rules.now) reached.now.ways reached.now.firsts }
        ensures value { IfOk result (λ count. count ≡ count_by (forbids_some (vertices self.now.turning.roads.now) self.now.turning.restrictions.now.kept) self.now.rules.now) }
        ensures few { IfOk result (λ count. count ≤ length self.now.rules.now) }
    {
        let mut count = 0;
        for i in 0..self.rules.len() {
            if self.forbids_some(alloc, reached, &self.rules[i])? {
                count += 1;
            }
        }
        Ok(count)
    }

    /// The sequences that these restrictions forbid.
    pub fn find(&self, alloc: Global) -> Result<Found, AllocError>
        requires parts { AreViaParts self.now.turning.roads.now self.now.turning.restrictions.now.kept self.now.turning.counts.now self.now.departures.now.order.items self.now.rules.now self.now.ways.ways self.now.ways.along self.now.courses.numbers self.now.courses.forbidden.ways self.now.courses.only.firsts }
        ensures words { IfOk result (λ found. words_in found.groups.items ≡ forbidden_words (vertices self.now.turning.roads.now) self.now.turning.restrictions.now.kept self.now.rules.now) }
        ensures paths { IfOk result (λ found. All HasPath found.groups.items) }
        ensures below { IfOk result (λ found. All (IsBelow (2 * length self.now.turning.roads.now)) found.groups.items) }
        ensures applied { IfOk result (λ found. found.applied ≡ count_by (forbids_some (vertices self.now.turning.roads.now) self.now.turning.restrictions.now.kept) self.now.rules.now) }
        ensures few { IfOk result (λ found. found.applied ≤ length self.now.rules.now) }
    {
        let mut groups = Vec::new(alloc);
        let mut reached = WaySets::new(alloc);
        for i in 0..self.rules.len() {
            if self.courses.number(alloc, self.rules, &self.rules[i])? == i {
                self.push_course(&mut groups, &mut reached, alloc, i)?;
            }
        }
        let applied = self.count(alloc, &reached)?;
        Ok(Found { groups, applied })
    }
}

impl Found {
    /// What the restrictions over via ways forbid on these roads. Without such restrictions nothing is looked for.
    #[tactic(auto, unfolding(crate::specs::ViaWays::forbidden_on, crate::specs::ViaWays::applied_along))]
    pub fn of(
        alloc: Global,
        roads: &Roads,
        departures: &Departures,
        restrictions: &Restrictions,
        exits: &[u32],
    ) -> Result<Found, AllocError>
        requires departures { AreDepartures (vertices roads.now) departures.now.order.items }
        requires exits { AreExits (vertices roads.now) exits.now }
        ensures words { IfOk result (λ found. words_in found.groups.items ≡ forbidden_on roads.now restrictions.now) }
        ensures paths { IfOk result (λ found. All HasPath found.groups.items) }
        ensures below { IfOk result (λ found. All (IsBelow (2 * length roads.now)) found.groups.items) }
        ensures applied { IfOk result (λ found. found.applied ≡ applied_along roads.now restrictions.now) }
        ensures few { IfOk result (λ found. found.applied ≤ length restrictions.now.along) }
    {
        let rules = restrictions.along();
        if rules.is_empty() {
            let groups = Vec::new(alloc);
            return Ok(Found { groups, applied: 0 });
        }
        let vias = Vias {
            turning: Turning {
                roads,
                restrictions,
                counts: exits,
            },
            departures,
            rules,
            ways: ViaWays::of(alloc, roads, rules)?,
            courses: Courses::of(alloc, rules)?,
        };
        vias.find(alloc)
    }
}
