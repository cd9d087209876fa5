//! The paths through the via ways of restrictions.

ghost use Rattle.std.specs.Prelude.{◌≡◌, ℤ, true, None, if◌then◌else◌, [], ◌∷◌, ◌*◌, ◌<◌, ◌++◌, ◌||◌, IfOk, OnOk, All, filter, length, map, nat_le};
ghost use Rattle.std.specs.HashMap.{get};
ghost use Rattle.std.specs.HashSet.{contains};
ghost use Rattle.std.specs.List.{list_all, list_any};
ghost use Rattle.std.specs.Ordering.{int_eq};
ghost use Rattle.turn_rules.specs.Rules.{is_among};
ghost use Rattle.road_turns.specs.Fans.{AreExits};
ghost use Rattle.via_restrictions.specs.ViaParts.{AreAlong, along_in, lists_in};
ghost use Rattle.via_restrictions.specs.ViaWays.{against, along, follow, is_open, length_through, most_on_path, paths_of, paths_through};
ghost use Rattle.road_segments.specs.Vertex.{vertices};

use crate::turning::Turning;
use road_segments::Roads;
use road_turns::other_way;
use std::alloc::{AllocError, Global};
use std::collections::{HashMap, HashSet};
use turn_rules::ViaRestriction;

// The most vertices of a path.
const MOST_ON_PATH: usize = 64;

/// The via ways of restrictions, and the segments of each.
#[derive(Drop)]
pub struct ViaWays {
    pub ways: HashSet<i64>,
    /// by way, its segments in its direction: 4 bytes each
    pub along: HashMap<i64, Vec<u32>>,
}

// Adds ways to a set.
fn add_ways(ways: &mut HashSet<i64>, more: &[i64]) -> Result<(), AllocError>
    ensures { OnOk result ((way : ℤ) → contains int_eq ways.new way ≡ (contains int_eq ways.old way || is_among more.now way)) }
{
    for i in (0..more.len()).rev() {
        ways.insert(more[i])?;
    }
    Ok(())
}

// The via ways of restrictions.
fn ways_of(alloc: Global, rules: &[ViaRestriction]) -> Result<HashSet<i64>, AllocError>
    ensures { IfOk result (λ ways. (way : ℤ) → contains int_eq ways way ≡ list_any (λ rule. is_among rule.via way) rules.now) }
{
    let mut ways = HashSet::new(alloc);
    for i in (0..rules.len()).rev() {
        add_ways(&mut ways, rules[i].via())?;
    }
    Ok(ways)
}

// Takes the list of a way out of the map.
fn take_run(alloc: Global, along: &mut HashMap<i64, Vec<u32>>, way: i64) -> Vec<u32>
    ensures items { result.items ≡ along_in along.old way }
    ensures rest { (w : ℤ) → get int_eq along.new w ≡ (if int_eq way w then None else get int_eq along.old w) }
{
    match along.remove(&way) {
        Some(run) => run,
        None => Vec::new(alloc),
    }
}

// Adds a vertex to the list of its way.
fn add_along(
    alloc: Global,
    along: &mut HashMap<i64, Vec<u32>>,
    way: i64,
    v: u32,
) -> Result<(), AllocError>
    ensures { OnOk result ((w : ℤ) → along_in along.new w ≡ (if int_eq way w then along_in along.old w ++ v ∷ [] else along_in along.old w)) }
{
    let mut run = take_run(alloc, along, way);
    run.push(v)?;
    along.insert(way, run)?;
    Ok(())
}

// The vertices along each of these ways.
fn along_of(
    alloc: Global,
    roads: &Roads,
    ways: &HashSet<i64>,
) -> Result<HashMap<i64, Vec<u32>>, AllocError>
    ensures { IfOk result (λ map. AreAlong (vertices roads.now) ways.now map) }
{
    let mut along = HashMap::new(alloc);
    for v in 0..2 * roads.len() {
        if v % 2 == 0 {
            let way = roads.way(v);
            if ways.contains(&way) {
                add_along(alloc, &mut along, way, v)?;
            }
        }
    }
    Ok(along)
}

// These vertices the other way round.
fn against_of(alloc: Global, run: &[u32]) -> Result<Vec<u32>, AllocError>
    ensures { IfOk result (λ list. list.items ≡ against run.now) }
{
    let mut list = Vec::with_capacity(alloc, run.len())?;
    for i in (0..run.len()).rev() {
        list.push(other_way(run[i]))?;
    }
    Ok(list)
}

// A run, and a path behind it.
fn joined(alloc: Global, run: &[u32], path: &[u32]) -> Result<Vec<u32>, AllocError>
    ensures { IfOk result (λ list. list.items ≡ run.now ++ path.now) }
{
    let mut list = Vec::with_capacity(alloc, run.len() + path.len())?;
    list.extend_from_slice(run)?;
    list.extend_from_slice(path)?;
    Ok(list)
}

// Adds those of the paths with a run before them on which each vertex may follow the one before it.
fn push_led(
    paths: &mut Vec<Vec<u32>>,
    alloc: Global,
    turning: &Turning<'_>,
    run: &[u32],
    rest: &[Vec<u32>],
) -> Result<(), AllocError>
    requires counts { AreExits (vertices turning.now.roads.now) turning.now.counts.now }
    requires run { All (λ v. v < 2 * length turning.now.roads.now) run.now }
    requires rest { All (λ path. All (λ v. v < 2 * length turning.now.roads.now) path) (lists_in rest.now) }
    ensures { OnOk result (lists_in paths.new.items ≡ lists_in paths.old.items ++ filter (follow (vertices turning.now.roads.now) turning.now.restrictions.now.kept) (map (λ path. run.now ++ path) (lists_in rest.now))) }
{
    for i in 0..rest.len() {
        let path = joined(alloc, run, &rest[i])?;
        if turning.follow(&path) {
            paths.push(path)?;
        }
    }
    Ok(())
}

// Those of the paths with the vertices along a way before them, in one direction or the other, on which each vertex may
// follow the one before it.
fn led_by(
    alloc: Global,
    turning: &Turning<'_>,
    along: &[u32],
    rest: &[Vec<u32>],
) -> Result<Vec<Vec<u32>>, AllocError>
    requires counts { AreExits (vertices turning.now.roads.now) turning.now.counts.now }
    requires along { All (λ v. v < 2 * length turning.now.roads.now) along.now }
    requires rest { All (λ path. All (λ v. v < 2 * length turning.now.roads.now) path) (lists_in rest.now) }
    ensures { IfOk result (λ paths. lists_in paths.items ≡ filter (follow (vertices turning.now.roads.now) turning.now.restrictions.now.kept) (map (λ path. along.now ++ path) (lists_in rest.now) ++ map (λ path. against along.now ++ path) (lists_in rest.now))) }
{
    let mut paths = Vec::new(alloc);
    push_led(&mut paths, alloc, turning, along, rest)?;
    let against = against_of(alloc, along)?;
    push_led(&mut paths, alloc, turning, &against, rest)?;
    Ok(paths)
}

impl ViaWays {
    /// The via ways of these restrictions on these roads: one pass over the roads.
    pub fn of(alloc: Global, roads: &Roads, rules: &[ViaRestriction]) -> Result<ViaWays, AllocError>
        ensures ways { IfOk result (λ w. (way : ℤ) → contains int_eq w.ways way ≡ list_any (λ rule. is_among rule.via way) rules.now) }
        ensures along { IfOk result (λ w. AreAlong (vertices roads.now) w.ways w.along) }
    {
        let ways = ways_of(alloc, rules)?;
        let along = along_of(alloc, roads, &ways)?;
        Ok(ViaWays { ways, along })
    }

    // The vertices along a way.
    fn along(&self, way: i64) -> &[u32]
        ensures { result.now ≡ along_in self.now.along way }
    {
        match self.along.get(&way) {
            Some(run) => run,
            None => &[],
        }
    }

    // Whether a way has two ends.
    fn is_open(&self, turning: &Turning<'_>, way: i64) -> bool
        requires along { AreAlong (vertices turning.now.roads.now) self.now.ways self.now.along }
        requires way { contains int_eq self.now.ways way ≡ true }
        ensures { result ≡ is_open (vertices turning.now.roads.now) (along (vertices turning.now.roads.now) way) }
    {
        let run = self.along(way);
        if run.is_empty() {
            return false;
        }
        !turning.meet(run[run.len() - 1], run[0])
    }

    // Whether each of these ways has two ends.
    fn are_open(&self, turning: &Turning<'_>, via: &[i64]) -> bool
        requires along { AreAlong (vertices turning.now.roads.now) self.now.ways self.now.along }
        requires via { All (λ way. contains int_eq self.now.ways way ≡ true) via.now }
        ensures { result ≡ list_all (λ way. is_open (vertices turning.now.roads.now) (along (vertices turning.now.roads.now) way)) via.now }
    {
        for i in 0..via.len() {
            if !self.is_open(turning, via[i]) {
                return false;
            }
        }
        true
    }

    // Whether these ways together are no longer than a path may be.
    fn are_short(&self, turning: &Turning<'_>, via: &[i64]) -> bool
        requires along { AreAlong (vertices turning.now.roads.now) self.now.ways self.now.along }
        requires via { All (λ way. contains int_eq self.now.ways way ≡ true) via.now }
        ensures { result ≡ nat_le (length_through (vertices turning.now.roads.now) via.now) most_on_path }
    {
        let _ = turning;
        let mut left = MOST_ON_PATH;
        for i in 0..via.len() {
            let count = self.along(via[i]).len();
            if count > left {
                return false;
            }
            left -= count;
        }
        true
    }

    /// The paths through via ways: there are none where a way has no two ends, or where they are too long.
    pub fn paths(
        &self,
        alloc: Global,
        turning: &Turning<'_>,
        via: &[i64],
    ) -> Result<Vec<Vec<u32>>, AllocError>
        requires counts { AreExits (vertices turning.now.roads.now) turning.now.counts.now }
        requires along { AreAlong (vertices turning.now.roads.now) self.now.ways self.now.along }
        requires via { All (λ way. contains int_eq self.now.ways way ≡ true) via.now }
        ensures { IfOk result (λ paths. lists_in paths.items ≡ paths_of (vertices turning.now.roads.now) turning.now.restrictions.now.kept via.now) }
    {
        if !self.are_open(turning, via) || !self.are_short(turning, via) {
            return Ok(Vec::new(alloc));
        }
        self.paths_through(alloc, turning, via)
    }

    // The paths through via ways of whatever length.
    fn paths_through(
        &self,
        alloc: Global,
        turning: &Turning<'_>,
        via: &[i64],
    ) -> Result<Vec<Vec<u32>>, AllocError>
        requires counts { AreExits (vertices turning.now.roads.now) turning.now.counts.now }
        requires along { AreAlong (vertices turning.now.roads.now) self.now.ways self.now.along }
        requires via { All (λ way. contains int_eq self.now.ways way ≡ true) via.now }
        ensures { IfOk result (λ paths. lists_in paths.items ≡ filter (follow (vertices turning.now.roads.now) turning.now.restrictions.now.kept) (paths_through (vertices turning.now.roads.now) via.now)) }
    {
        let mut paths = Vec::new(alloc);
        paths.push(Vec::new(alloc))?;
        for i in (0..via.len()).rev() {
            paths = led_by(alloc, turning, self.along(via[i]), &paths)?;
        }
        Ok(paths)
    }
}
