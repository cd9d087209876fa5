//! The search: a tree of walks, the labels of the vertices, and the queue.

ghost use Rattle.std.specs.Prelude.{◌≡◌, ◌≢◌, ℕ, ◌<◌, List, true, false, reverse, length, Some, IfSome, IfNone, IfOk, OnOk};
ghost use Rattle.std.specs.Bool.{OnTrue, OnFalse};
ghost use Rattle.std.specs.List.{Contains, slice_get};
ghost use Rattle.step_search.specs.Spaces.{IsSpace};
ghost use Rattle.step_search.specs.Paths.{AreStarts, IsAnswer, IsBeyond, IsLeastPathCost, NoPathTo};
ghost use Rattle.search_labels.specs.Labelled.{label_of, settled_of};
ghost use Rattle.row_labels.specs.Rowed.{value_of};
ghost use Rattle.step_search.specs.Progress.{IsBackward, IsFront, IsTrail, AreBounds};
ghost use Rattle.step_search.specs.Stepping.{Begins, IsFresh, NoneSettled};
ghost use Rattle.step_search.specs.UnderWay.{IsUnderWay, IsDone};

use crate::hops::Steps;
use crate::links::Link;
use row_labels::RowLabels;
use search_graph::{Cost, Start};
use search_labels::Labels;
use search_queue::Queue;
use std::alloc::{AllocError, Global};

/// A cheapest path to a target: its cost, and its vertices from a start to the target, two or more.
#[derive(Drop)]
pub struct Reached<C> {
    pub cost: C,
    pub walk: Vec<u32>,
}

/// A walk from a start to `vertex`: what is paid up to it and with it, and the node that it is one hop behind.
#[derive(Clone, Copy, Drop)]
pub struct Node<C> {
    pub cost: C,
    pub vertex: u32,
    pub before: Link,
}

/// A search under way.
pub struct Search<C: Cost> {
    pub(crate) tree: Vec<Node<C>>,
    pub(crate) labels: Labels<C>,
    pub(crate) queue: Queue<C>,
    pub(crate) rows: RowLabels<C>,
}

impl<C: Cost> Drop for Search<C> {
    fn drop(self) {
        let Search {
            tree: _tree,
            labels: _labels,
            queue: _queue,
            rows: _rows,
        } = self;
    }
}

impl<C: Cost> Search<C> {
    /// A search that has not begun. It has the memory in which others begin, by `restart`.
    pub fn new(alloc: Global) -> Search<C> {
        Search {
            tree: Vec::new(alloc),
            labels: Labels::new(alloc),
            queue: Queue::new(alloc),
            rows: RowLabels::new(alloc),
        }
    }

    /// A search that has begun at each start where a path may begin, or the error where memory runs out.
    pub fn begin<T: Steps<C>>(
        alloc: Global,
        steps: &T,
        starts: &[Start<C>],
    ) -> Result<Search<C>, AllocError>
        requires ready { T.ready steps.now }
        requires space { IsSpace C.ops (T.space steps.now) }
        requires starts { AreStarts C.ops (T.space steps.now) starts.now }
        ensures { IfOk result (IsUnderWay C.ops (T.space steps.now) starts.now) }
    {
        let mut search = Search::new(alloc);
        search.restart(steps, starts)?;
        Ok(search)
    }

    /// Begins anew, in the memory that the search has, at each start where a path may begin, or gives the error
    /// where memory runs out. It takes time for the vertices and rows that were touched since it last began.
    ///
    /// It may be called after any error.
    pub fn restart<T: Steps<C>>(&mut self, steps: &T, starts: &[Start<C>]) -> Result<(), AllocError>
        requires ready { T.ready steps.now }
        requires space { IsSpace C.ops (T.space steps.now) }
        requires starts { AreStarts C.ops (T.space steps.now) starts.now }
        ensures { OnOk result (IsUnderWay C.ops (T.space steps.now) starts.now self.new) }
    {
        self.tree.clear();
        self.labels.clear();
        self.queue.clear();
        self.rows.clear();
        self.begin_all(steps, starts)
    }

    /// Goes on until `until` is settled or nothing is left to settle. It ends in the error where memory runs
    /// out, and the search is then of no use any more.
    ///
    /// `steps` and `starts` are those with which the search began.
    pub fn run<T: Steps<C>>(
        &mut self,
        steps: &T,
        starts: &[Start<C>],
        until: u32,
    ) -> Result<(), AllocError>
        requires ready { T.ready steps.now }
        requires under_way { IsUnderWay C.ops (T.space steps.now) starts.now self.old }
        ensures under_way { OnOk result (IsUnderWay C.ops (T.space steps.now) starts.now self.new) }
        ensures done { OnOk result (IsDone C.ops (T.space steps.now) starts.now self.new until) }
    {
        while !self.labels.is_settled(until) {
            if self.settle_next(steps, starts)?.is_none() {
                return Ok(());
            }
        }
        Ok(())
    }

    /// Goes on until `until` is settled, nothing is left to settle, or each path to what isn't expanded costs `limit`
    /// or more. It tells whether it is done with `until`; else no path to it costs less than `limit`. It ends in the error
    /// where memory runs out, and the search is then of no use any more.
    ///
    /// `steps` and `starts` are those with which the search began.
    pub fn run_below<T: Steps<C>>(
        &mut self,
        steps: &T,
        starts: &[Start<C>],
        until: u32,
        limit: C,
    ) -> Result<bool, AllocError>
        requires ready { T.ready steps.now }
        requires under_way { IsUnderWay C.ops (T.space steps.now) starts.now self.old }
        ensures under_way { OnOk result (IsUnderWay C.ops (T.space steps.now) starts.now self.new) }
        ensures done { IfOk result (λ done. OnTrue done (IsDone C.ops (T.space steps.now) starts.now self.new until)) }
        ensures beyond { IfOk result (λ done. OnFalse done (IsBeyond C.ops (T.space steps.now) starts.now until limit)) }
    {
        while !self.labels.is_settled(until) {
            if self.queue.is_beyond(limit) {
                return Ok(self.labels.is_within(until, limit));
            }
            if self.settle_next(steps, starts)?.is_none() {
                return Ok(true);
            }
        }
        Ok(true)
    }

    /// Goes on until one of the targets is settled, or nothing is left to settle, and gives the place among them of one that
    /// it is done with, or `None` where no path leads to any of them. It ends in the error where memory runs out, and
    /// the search is then of no use any more.
    ///
    /// `steps` and `starts` are those with which the search began. Each vertex that it settles is compared with all
    /// targets, so there should be few.
    pub fn run_first<T: Steps<C>>(
        &mut self,
        steps: &T,
        starts: &[Start<C>],
        targets: &[u32],
    ) -> Result<Option<usize>, AllocError>
        requires ready { T.ready steps.now }
        requires under_way { IsUnderWay C.ops (T.space steps.now) starts.now self.old }
        ensures under_way { OnOk result (IsUnderWay C.ops (T.space steps.now) starts.now self.new) }
        ensures first { IfOk result (λ first. IfSome first (λ k. (t : ℕ) × (slice_get targets.now k ≡ Some t) × IsDone C.ops (T.space steps.now) starts.now self.new t)) }
        ensures none { IfOk result (λ first. IfNone first ((t : ℕ) → Contains targets.now t → NoPathTo C.ops (T.space steps.now) starts.now t)) }
    {
        if let Some(first) = self.first_settled(targets) {
            return Ok(Some(first));
        }
        while let Some(v) = self.settle_next(steps, starts)? {
            if let Some(first) = first_place(targets, v) {
                return Ok(Some(first));
            }
        }
        Ok(self.first_labelled(targets))
    }

    /// Goes on until it has a path to `until` that costs no more than `known`, than which no path to it costs less, or
    /// `until` is settled, or nothing is left to settle. It ends in the error where memory runs out, and the search is
    /// then of no use any more.
    ///
    /// `steps` and `starts` are those with which the search began. Where `known` is what a cheapest path costs, the
    /// search needn't come as far as `until`: it ends as soon as a neighbour leads there at that cost.
    pub fn run_to<T: Steps<C>>(
        &mut self,
        steps: &T,
        starts: &[Start<C>],
        until: u32,
        known: C,
    ) -> Result<(), AllocError>
        requires ready { T.ready steps.now }
        requires under_way { IsUnderWay C.ops (T.space steps.now) starts.now self.old }
        requires known { IsBeyond C.ops (T.space steps.now) starts.now until known }
        ensures under_way { OnOk result (IsUnderWay C.ops (T.space steps.now) starts.now self.new) }
        ensures done { OnOk result (IsDone C.ops (T.space steps.now) starts.now self.new until) }
    {
        while !self.labels.is_settled(until) {
            if self.labels.is_within(until, known) {
                return Ok(());
            }
            if self.settle_next(steps, starts)?.is_none() {
                return Ok(());
            }
        }
        Ok(())
    }

    /// A cheapest path to `target`, or `None` exactly where there is none, once the search has run until it.
    /// It answers the error where memory runs out.
    ///
    /// `steps` and `starts` are those with which the search began.
    pub fn answer<T: Steps<C>>(
        &self,
        alloc: Global,
        steps: &T,
        starts: &[Start<C>],
        target: u32,
    ) -> Result<Option<Reached<C>>, AllocError>
        requires under_way { IsUnderWay C.ops (T.space steps.now) starts.now self.now }
        requires done { IsDone C.ops (T.space steps.now) starts.now self.now target }
        ensures { IfOk result (IsAnswer C.ops (T.space steps.now) starts.now target) }
    {
        let _ = steps;
        let _ = starts;
        match self.labels.label(target) {
            None => Ok(None),
            Some(label) => {
                let mut walk = walk_to(alloc, self.tree.as_slice(), label.node)?;
                walk.push(target)?;
                let reached = Reached {
                    cost: label.cost,
                    walk,
                };
                Ok(Some(reached))
            }
        }
    }

    /// What a cheapest path to `target` costs, or `None` exactly where there is none, once the search has run
    /// until it.
    ///
    /// `steps` and `starts` are those with which the search began.
    pub fn cost<T: Steps<C>>(&self, steps: &T, starts: &[Start<C>], target: u32) -> Option<C>
        requires under_way { IsUnderWay C.ops (T.space steps.now) starts.now self.now }
        requires done { IsDone C.ops (T.space steps.now) starts.now self.now target }
        ensures { IsLeastPathCost C.ops (T.space steps.now) starts.now target result }
    {
        let _ = steps;
        let _ = starts;
        match self.labels.label(target) {
            None => None,
            Some(label) => Some(label.cost),
        }
    }

    // Begins at each start, in a search that has nothing.
    fn begin_all<T: Steps<C>>(&mut self, steps: &T, starts: &[Start<C>]) -> Result<(), AllocError>
        requires ready { T.ready steps.now }
        requires space { IsSpace C.ops (T.space steps.now) }
        requires starts { AreStarts C.ops (T.space steps.now) starts.now }
        requires fresh { IsFresh self.old }
        ensures { OnOk result (IsUnderWay C.ops (T.space steps.now) starts.now self.new) }
    {
        for start in starts {
            self.begin_at(steps, *start)?;
        }
        Ok(())
    }

    // Begins at one start, where a path may begin there.
    fn begin_at<T: Steps<C>>(&mut self, steps: &T, start: Start<C>) -> Result<(), AllocError>
        requires ready { T.ready steps.now }
        requires space { IsSpace C.ops (T.space steps.now) }
        requires vertex { start.vertex < (T.space steps.now).vertices }
        requires units { C.ops.units start.cost 1 }
        requires front { IsFront C.ops (T.space steps.now) self.old.tree.items (label_of self.old.labels) (settled_of self.old.labels) self.old.queue }
        requires unsettled { NoneSettled (settled_of self.old.labels) }
        requires rows { AreBounds C.ops (T.space steps.now) (label_of self.old.labels) (value_of self.old.rows.rows) }
        ensures front { OnOk result (IsFront C.ops (T.space steps.now) self.new.tree.items (label_of self.new.labels) (settled_of self.new.labels) self.new.queue) }
        ensures begins { OnOk result (Begins C.ops (T.space steps.now) self.old self.new start) }
        ensures rows { OnOk result (AreBounds C.ops (T.space steps.now) (label_of self.new.labels) (value_of self.new.rows.rows)) }
    {
        if !steps.may_begin(start.vertex) {
            return Ok(());
        }
        let at = self.tree.len();
        let node = Node {
            cost: start.cost,
            vertex: start.vertex,
            before: Link::none(),
        };
        self.tree.push(node)?;
        self.expand(steps, at, node)?;
        Ok(())
    }

    // The place of the first of the targets that is settled, if one is.
    fn first_settled(&self, targets: &[u32]) -> Option<usize>
        ensures some { IfSome result (λ k. (t : ℕ) × (slice_get targets.now k ≡ Some t) × (settled_of self.now.labels t ≡ true)) }
        ensures none { IfNone result ((t : ℕ) → Contains targets.now t → settled_of self.now.labels t ≡ false) }
    {
        for (place, target) in targets.iter().enumerate() {
            if self.labels.is_settled(*target) {
                return Some(place);
            }
        }
        None
    }

    // The place of the first of the targets that has a label, if one has.
    fn first_labelled(&self, targets: &[u32]) -> Option<usize>
        ensures some { IfSome result (λ k. (t : ℕ) × (slice_get targets.now k ≡ Some t)) }
        ensures none { IfNone result ((t : ℕ) → Contains targets.now t → label_of self.now.labels t ≡ None) }
    {
        for (place, target) in targets.iter().enumerate() {
            if self.labels.label(*target).is_some() {
                return Some(place);
            }
        }
        None
    }
}

// The first place at which the vertex is among the targets, if it is.
#[inline(always)]
fn first_place(targets: &[u32], v: u32) -> Option<usize>
    ensures some { IfSome result (λ k. slice_get targets.now k ≡ Some v) }
    ensures none { IfNone result ((t : ℕ) → Contains targets.now t → t ≢ v) }
{
    for (place, target) in targets.iter().enumerate() {
        if *target == v {
            return Some(place);
        }
    }
    None
}

// The vertices of the walk that the node at `at` stands for.
fn walk_to<C: Cost>(alloc: Global, tree: &[Node<C>], at: usize) -> Result<Vec<u32>, AllocError>
    requires backward { IsBackward tree.now }
    requires in_range { at < length tree.now }
    ensures { IfOk result (λ walk. (trail : List ℕ) × IsTrail tree.now (Some at) trail × (walk.items ≡ reverse trail)) }
{
    let mut walk = Vec::new(alloc);
    let mut next = Some(at);
    while let Some(i) = next {
        let node = tree[i];
        walk.push(node.vertex)?;
        next = node.before.place();
    }
    walk.reverse();
    Ok(walk)
}

/// A cheapest path from the starts to each target, in the order of the targets, or `None` exactly where there
/// is none. A path has one hop or more, so one to a start itself leads round.
///
/// It answers the error where memory runs out.
pub fn least<C: Cost, T: Steps<C>>(
    alloc: Global,
    steps: &T,
    starts: &[Start<C>],
    targets: &[u32],
) -> Result<Vec<Option<Reached<C>>>, AllocError>
    requires ready { T.ready steps.now }
    requires space { IsSpace C.ops (T.space steps.now) }
    requires starts { AreStarts C.ops (T.space steps.now) starts.now }
    ensures one_each { IfOk result (λ found. length found.items ≡ length targets.now) }
    ensures least { IfOk result (λ found. (k t : ℕ) (answer : _) → slice_get targets.now k ≡ Some t → slice_get found.items k ≡ Some answer → IsAnswer C.ops (T.space steps.now) starts.now t answer) }
{
    let mut search = Search::begin(alloc, steps, starts)?;
    let mut found = Vec::new(alloc);
    for target in targets {
        search.run(steps, starts, *target)?;
        found.push(search.answer(alloc, steps, starts, *target)?)?;
    }
    Ok(found)
}
