//! Leaps: a place of a row and an arc behind it as one hop.

ghost use Rattle.std.specs.Prelude.{◌≡◌, ℕ, ◌+◌, ◌<◌, ◌≤◌, ◌⊎◌, ◌^◌, length, Some, IfSome, IfOk, OnOk};
ghost use Rattle.std.specs.Bool.{OnTrue, OnFalse};
ghost use Rattle.std.specs.List.{Contains, slice_get};
ghost use Rattle.step_search.specs.Spaces.{IsSpace};
ghost use Rattle.cell_customize.specs.Leaping.{ArcHop, RowHop, Beyond, Placed, IfPlaced, Gathers, AreBundles, AreRanksOf, IsGoal};

use crate::numbering::Numbering;
use cost_lists::CostRow;
use label_search::ArcRank;
use search_graph::Cost;
use std::alloc::{AllocError, Global};
use step_search::{Hop, Steps};

/// Where the leaps of a vertex stand.
#[derive(Clone, Copy, Drop)]
pub struct Bundle {
    pub from: u32,
    pub end: u32,
}

/// Hops that are gathered, of those to one head only the cheapest.
pub struct Gathering<C: Cost> {
    pub hops: Vec<Hop<C>>,
    // by head: where a hop to it may stand
    places: Vec<u32>,
}

impl<C: Cost> Drop for Gathering<C> {
    fn drop(self) {
        let Gathering {
            hops: _hops,
            places: _places,
        } = self;
    }
}

impl<C: Cost> Gathering<C> {
    // No hops.
    fn new(alloc: Global) -> Gathering<C> {
        Gathering {
            hops: Vec::new(alloc),
            places: Vec::new(alloc),
        }
    }

    // Takes all hops away, and makes room for heads below `count`.
    fn clear(&mut self, count: u32) -> Result<(), AllocError> {
        self.hops.clear();
        self.places.clear();
        self.places.resize(count as usize, 0)?;
        Ok(())
    }

    // The place of a hop to a head, from place `from` on, if one is known.
    fn place(&self, from: usize, head: u32) -> Option<usize>
        ensures { IfSome result (λ at. (from ≤ at) × (c : C) × (slice_get self.now.hops.items at ≡ Some (record { head = head; cost = c }))) }
    {
        match self.places.get(head as usize) {
            None => None,
            Some(at) => self.checked(from, *at as usize, head),
        }
    }

    // The place, if a hop to the head stands there.
    fn checked(&self, from: usize, at: usize, head: u32) -> Option<usize>
        ensures { IfSome result (λ p. (from ≤ p) × (c : C) × (slice_get self.now.hops.items p ≡ Some (record { head = head; cost = c }))) }
    {
        if at < from {
            return None;
        }
        match self.hops.get(at) {
            None => None,
            Some(hop) => { if hop.head == head { Some(at) } else { None } }
        }
    }

    // Makes the hop at a place cheaper, where this cost is less.
    fn lower(&mut self, from: usize, at: usize, head: u32, cost: C)
        requires from { from ≤ at }
        requires here { (c : C) × (slice_get self.old.hops.items at ≡ Some (record { head = head; cost = c })) }
        ensures { Gathers C.ops self.old.hops.items self.new.hops.items from (λ v c. (v ≡ head) × (c ≡ cost)) }
    {
        if cost.cmp(&self.hops[at].cost).is_lt() {
            self.hops[at] = Hop { head, cost };
        }
    }

    // Puts a hop at the end.
    fn push(&mut self, from: usize, hop: Hop<C>) -> Result<(), AllocError>
        requires { from ≤ length self.old.hops.items }
        ensures { OnOk result (Gathers C.ops self.old.hops.items self.new.hops.items from (λ v c. (v ≡ hop.head) × (c ≡ hop.cost))) }
    {
        let at = self.hops.len();
        if at > u32::MAX as usize {
            return Err(AllocError);
        }
        note(&mut self.places, hop.head, at as u32);
        self.hops.push(hop)?;
        Ok(())
    }

    // Takes a hop among those from place `from` on, unless one to its head is no dearer.
    fn offer(&mut self, from: usize, hop: Hop<C>) -> Result<(), AllocError>
        requires { from ≤ length self.old.hops.items }
        ensures { OnOk result (Gathers C.ops self.old.hops.items self.new.hops.items from (λ v c. (v ≡ hop.head) × (c ≡ hop.cost))) }
    {
        match self.place(from, hop.head) {
            None => self.push(from, hop),
            Some(at) => {
                self.lower(from, at, hop.head, hop.cost);
                Ok(())
            }
        }
    }

    // Takes the hop along an arc of x, where that way is open, with what is paid before.
    fn take_arc<T: Steps<C>>(
        &mut self,
        steps: &T,
        x: u32,
        arc: u32,
        paid: C,
        from: usize,
    ) -> Result<(), AllocError>
        requires ready { T.ready steps.now }
        requires vertex { x < (T.space steps.now).vertices }
        requires named { (T.space steps.now).Name x arc }
        requires fits { (v : ℕ) (t : C) → (T.space steps.now).Arc x arc v t → C.ops.units (C.ops.plus paid t) (2 ^ 31) }
        requires from { from ≤ length self.old.hops.items }
        ensures { OnOk result (Gathers C.ops self.old.hops.items self.new.hops.items from (λ v c. (t : C) × (T.space steps.now).Arc x arc v t × (c ≡ C.ops.plus paid t))) }
    {
        match steps.by_arc(x, arc) {
            None => Ok(()),
            Some(hop) => {
                let head = hop.head;
                let cost = paid.plus(hop.cost);
                self.offer(from, Hop { head, cost })
            }
        }
    }

    // Takes the hop along each arc of x with what is paid before.
    fn take_arcs<T: Steps<C>>(
        &mut self,
        steps: &T,
        x: u32,
        paid: C,
        from: usize,
    ) -> Result<(), AllocError>
        requires ready { T.ready steps.now }
        requires vertex { x < (T.space steps.now).vertices }
        requires fits { (v : ℕ) (t : C) → ArcHop (T.space steps.now) x v t → C.ops.units (C.ops.plus paid t) (2 ^ 31) }
        requires from { from ≤ length self.old.hops.items }
        ensures { OnOk result (Gathers C.ops self.old.hops.items self.new.hops.items from (λ v c. (t : C) × ArcHop (T.space steps.now) x v t × (c ≡ C.ops.plus paid t))) }
    {
        let arcs = steps.arcs(x);
        for place in 0..arcs.len() {
            self.take_arc(steps, x, arcs.get(place), paid, from)?;
        }
        Ok(())
    }

    // Takes x itself if it is a goal.
    fn take_goal(&mut self, goals: &[bool], x: u32, cost: C, from: usize) -> Result<(), AllocError>
        requires { from ≤ length self.old.hops.items }
        ensures { OnOk result (Gathers C.ops self.old.hops.items self.new.hops.items from (λ v c. IsGoal goals.now x × (v ≡ x) × (c ≡ cost))) }
    {
        if !is_goal(goals, x) {
            return Ok(());
        }
        self.offer(from, Hop { head: x, cost })
    }

    // Takes what lies behind a place of a row, which leads to x at this cost: each arc of x, and x itself if it is a goal.
    fn take_place<T: Steps<C>>(
        &mut self,
        steps: &T,
        goals: &[bool],
        x: u32,
        cost: C,
        from: usize,
    ) -> Result<(), AllocError>
        requires ready { T.ready steps.now }
        requires vertex { x < (T.space steps.now).vertices }
        requires fits { (v : ℕ) (t : C) → ArcHop (T.space steps.now) x v t → C.ops.units (C.ops.plus cost t) (2 ^ 31) }
        requires from { from ≤ length self.old.hops.items }
        ensures { OnOk result (Gathers C.ops self.old.hops.items self.new.hops.items from (Placed C.ops (T.space steps.now) (IsGoal goals.now) x cost)) }
    {
        self.take_arcs(steps, x, cost, from)?;
        self.take_goal(goals, x, cost, from)
    }

    // The same, where the place is open.
    fn take_open<T: Steps<C>>(
        &mut self,
        steps: &T,
        goals: &[bool],
        x: u32,
        cost: Option<C>,
        from: usize,
    ) -> Result<(), AllocError>
        requires ready { T.ready steps.now }
        requires vertex { (s : C) → cost ≡ Some s → x < (T.space steps.now).vertices }
        requires fits { (s : C) → cost ≡ Some s → (v : ℕ) (t : C) → ArcHop (T.space steps.now) x v t → C.ops.units (C.ops.plus s t) (2 ^ 31) }
        requires from { from ≤ length self.old.hops.items }
        ensures { OnOk result (Gathers C.ops self.old.hops.items self.new.hops.items from (IfPlaced C.ops (T.space steps.now) (IsGoal goals.now) x cost)) }
    {
        match cost {
            None => Ok(()),
            Some(cost) => self.take_place(steps, goals, x, cost, from),
        }
    }

    // Takes what lies behind each place of u's row that has a cost.
    fn take_row<T: Steps<C>>(
        &mut self,
        steps: &T,
        goals: &[bool],
        u: u32,
        from: usize,
    ) -> Result<(), AllocError>
        requires ready { T.ready steps.now }
        requires space { IsSpace C.ops (T.space steps.now) }
        requires vertex { u < (T.space steps.now).vertices }
        requires from { from ≤ length self.old.hops.items }
        ensures { OnOk result (Gathers C.ops self.old.hops.items self.new.hops.items from (λ v c. Beyond C.ops (T.space steps.now) u v c ⊎ (IsGoal goals.now v × RowHop (T.space steps.now) u v c))) }
    {
        let heads = steps.heads(u);
        let costs = steps.costs(u);
        for place in 0..heads.len() {
            self.take_open(steps, goals, heads[place], cost_at(&costs, place), from)?;
        }
        Ok(())
    }
}

// Notes where a hop to a head may stand, if there is room for the head.
fn note(places: &mut [u32], head: u32, at: u32) {
    if (head as usize) < places.len() {
        places[head as usize] = at;
    }
}

// Whether a number is marked.
fn is_goal(goals: &[bool], x: u32) -> bool
    ensures yes { OnTrue result (IsGoal goals.now x) }
    ensures no { OnFalse result (¬ IsGoal goals.now x) }
{
    match goals.get(x as usize) {
        None => false,
        Some(goal) => *goal,
    }
}

// What a place of a row costs, if the row is as long and the place is open.
fn cost_at<C: Cost>(costs: &CostRow<'_, C>, place: usize) -> Option<C>
    ensures some { IfSome result (λ s. slice_get costs.now place ≡ Some (Some s)) }
    ensures all { (s : C) → slice_get costs.now place ≡ Some (Some s) → result ≡ Some s }
{
    if place >= costs.len() {
        return None;
    }
    costs.get(place)
}

// A place in four bytes. One past 2^32 - 1 is answered by the error, as where memory runs out.
fn short(place: usize) -> Result<u32, AllocError>
    ensures { IfOk result (λ n. n ≡ place) }
{
    if place > u32::MAX as usize {
        return Err(AllocError);
    }
    Ok(place as u32)
}

// Marks the number of a vertex, if it has one.
fn mark(goals: &mut [bool], numbers: &Numbering, v: u32)
    requires { length goals.old ≡ length numbers.now }
    ensures marked { (b : ℕ) → slice_get numbers.now b ≡ Some v → IsGoal goals.new b }
    ensures stays { (b : ℕ) → IsGoal goals.old b → IsGoal goals.new b }
{
    numbers.known();
    match numbers.number(v) {
        None => (),
        Some(b) => goals[b as usize] = true,
    }
}

// Marks the numbers of the vertices that have some.
fn mark_all(goals: &mut [bool], numbers: &Numbering, vertices: &[u32])
    requires { length goals.old ≡ length numbers.now }
    ensures { (v b : ℕ) → Contains vertices.now v → slice_get numbers.now b ≡ Some v → IsGoal goals.new b }
{
    for v in vertices {
        mark(goals, numbers, *v);
    }
}

// Puts the rank of each hop at its place, and takes what stood there before away.
fn rank_all<C: Cost>(hops: &[Hop<C>], ranks: &mut Vec<ArcRank>) -> Result<(), AllocError>
    ensures { OnOk result (AreRanksOf C.ops C.ranked hops.now ranks.new.items) }
{
    ranks.clear();
    for place in 0..hops.len() {
        ranks.push(ArcRank::of(hops[place]))?;
    }
    Ok(())
}

/// Out of each vertex of a space its leaps: along its arcs, by a place of its row and an arc behind it, and by a place of
/// its row that leads to a goal. Of those to one head only the cheapest is kept.
///
/// A search over them comes to no vertex to which only rows lead, but the goals. It costs 8 bytes a vertex, and the size of a
/// `Hop` and 16 bytes a leap.
pub struct Leaps<C: Cost> {
    pub bundles: Vec<Bundle>,
    pub gathering: Gathering<C>,
    pub goals: Vec<bool>,
    /// By the place of a hop: what a search sees of it before it looks at its cost.
    pub ranks: Vec<ArcRank>,
}

impl<C: Cost> Drop for Leaps<C> {
    fn drop(self) {
        let Leaps {
            bundles: _bundles,
            gathering: _gathering,
            goals: _goals,
            ranks: _ranks,
        } = self;
    }
}

impl<C: Cost> Leaps<C> {
    /// No leaps.
    pub fn new(alloc: Global) -> Leaps<C> {
        Leaps {
            bundles: Vec::new(alloc),
            gathering: Gathering::new(alloc),
            goals: Vec::new(alloc),
            ranks: Vec::new(alloc),
        }
    }

    /// Takes the leaps out of all vertices, whose number is that of the numbering, and what stood in it before away. Goals are
    /// the numbers of the targets.
    ///
    /// It may be called after any error.
    pub fn fill<T: Steps<C>>(
        &mut self,
        steps: &T,
        numbers: &Numbering,
        targets: &[u32],
    ) -> Result<(), AllocError>
        requires ready { T.ready steps.now }
        requires space { IsSpace C.ops (T.space steps.now) }
        requires count { (T.space steps.now).vertices ≡ length numbers.now }
        ensures bundles { OnOk result (AreBundles C.ops (T.space steps.now) (IsGoal self.new.goals.items) self.new.bundles.items self.new.gathering.hops.items (length numbers.now)) }
        ensures goals { OnOk result ((v b : ℕ) → Contains targets.now v → slice_get numbers.now b ≡ Some v → IsGoal self.new.goals.items b) }
        ensures ranks { OnOk result (AreRanksOf C.ops C.ranked self.new.gathering.hops.items self.new.ranks.items) }
    {
        let count = numbers.len() as u32;
        self.goals.clear();
        self.goals.resize(count as usize, false)?;
        mark_all(&mut self.goals, numbers, targets);
        self.bundles.clear();
        self.gathering.clear(count)?;
        self.take_all(steps, count)?;
        rank_all(self.gathering.hops.as_slice(), &mut self.ranks)
    }

    // Takes the leaps out of all vertices.
    fn take_all<T: Steps<C>>(&mut self, steps: &T, count: u32) -> Result<(), AllocError>
        requires ready { T.ready steps.now }
        requires space { IsSpace C.ops (T.space steps.now) }
        requires count { (T.space steps.now).vertices ≡ count }
        requires none { AreBundles C.ops (T.space steps.now) (IsGoal self.old.goals.items) self.old.bundles.items self.old.gathering.hops.items 0 }
        ensures bundles { OnOk result (AreBundles C.ops (T.space steps.now) (IsGoal self.new.goals.items) self.new.bundles.items self.new.gathering.hops.items count) }
        ensures goals { self.new.goals.items ≡ self.old.goals.items }
    {
        for u in 0..count {
            self.take(steps, u)?;
        }
        Ok(())
    }

    // Takes the leaps out of one vertex more.
    fn take<T: Steps<C>>(&mut self, steps: &T, u: u32) -> Result<(), AllocError>
        requires ready { T.ready steps.now }
        requires space { IsSpace C.ops (T.space steps.now) }
        requires vertex { u < (T.space steps.now).vertices }
        requires bundles { AreBundles C.ops (T.space steps.now) (IsGoal self.old.goals.items) self.old.bundles.items self.old.gathering.hops.items u }
        ensures bundles { OnOk result (AreBundles C.ops (T.space steps.now) (IsGoal self.new.goals.items) self.new.bundles.items self.new.gathering.hops.items (u + 1)) }
        ensures goals { self.new.goals.items ≡ self.old.goals.items }
    {
        let from = self.gathering.hops.len();
        self.gathering.take_arcs(steps, u, C::ZERO, from)?;
        self.gathering
            .take_row(steps, self.goals.as_slice(), u, from)?;
        let begin = short(from)?;
        let end = short(self.gathering.hops.len())?;
        self.bundles.push(Bundle { from: begin, end })?;
        Ok(())
    }
}
