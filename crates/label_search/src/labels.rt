//! A search from one vertex to all to which it comes, with the labels of the vertices side by side.

ghost use Rattle.std.specs.Prelude.{◌≡◌, ℕ, ◌+◌, ◌<◌, ◌≤◌, ◌^◌, [], length, Some, None, IfSome, OnOk};
ghost use Rattle.std.specs.Bool.{OnTrue, OnFalse};
ghost use Rattle.std.specs.List.{Contains, slice_get};
ghost use Rattle.search_graph.specs.Costs.{NoDearer};
ghost use Rattle.step_search.specs.Spaces.{IsSpace};
ghost use Rattle.label_search.specs.Labelled.{Held, IsFront, IsReached, LabelsFall, LabelWithin, Nothing, Offers};
ghost use Rattle.label_search.specs.Least.{AreLeast, HasArcsAlone};
ghost use Rattle.label_search.specs.Ranked.{AreArcRanks, IsOverRank};

use crate::arc_ranks::ArcRank;
use crate::frontier::Frontier;
use crate::label_list::LabelList;
use search_graph::Cost;
use std::alloc::{AllocError, Global};
use step_search::Steps;

// An entry that was taken from the frontier: a vertex, and what was its label when it came there, with that cost's rank.
#[derive(Clone, Copy, Drop)]
struct Entry<C> {
    vertex: u32,
    cost: C,
    rank: Option<u64>,
}

// From so many arcs a vertex on the search keeps what waits in a tree. A vertex is then pushed two to four times, so that half and
// more of a queue's entries are taken for nothing; with two or three arcs few are, and the queue is faster.
const DENSE: usize = 4;

// What a search goes over: the steps, and by the numbers of their arcs the ranks of these.
#[derive(Drop)]
struct Ground<'a, T> {
    steps: &'a T,
    arcs: &'a [ArcRank],
}

/// What the cheapest ways so far cost, by vertex, and from where the search has still to go on.
///
/// A label only falls. An entry whose vertex's label has fallen since is passed over, where it is still there. It costs eight
/// bytes and the size of a `C` a vertex, 16 bytes a vertex more where a space is dense, and 16 bytes an entry of the queue whose
/// cost has a rank.
pub struct Labels<C: Cost> {
    /// By vertex: its label, if a way to it was found.
    pub list: LabelList<C>,
    frontier: Frontier<C>,
}

impl<C: Cost> Drop for Labels<C> {
    fn drop(self) {
        let Labels {
            list: _list,
            frontier: _frontier,
        } = self;
    }
}

impl<C: Cost> Labels<C> {
    /// No labels.
    pub fn new(alloc: Global) -> Labels<C> {
        Labels {
            list: LabelList::new(alloc),
            frontier: Frontier::new(alloc),
        }
    }

    /// Searches the whole space, of `count` vertices, from `start`: each other vertex has then as its label what a cheapest
    /// path to it costs, and none where there is no path. What stood in it before is taken away. `arcs` has the rank of each
    /// arc by the arc's number.
    ///
    /// It answers the error where memory runs out, and may be called after it.
    pub fn search<T: Steps<C>>(
        &mut self,
        steps: &T,
        arcs: &[ArcRank],
        start: u32,
        count: u32,
    ) -> Result<(), AllocError>
        requires ready { T.ready steps.now }
        requires space { IsSpace C.ops (T.space steps.now) }
        requires alone { HasArcsAlone (T.space steps.now) }
        requires arcs { AreArcRanks C.ops C.ranked (T.space steps.now) arcs.now }
        requires count { count ≡ (T.space steps.now).vertices }
        requires start { start < count }
        ensures { OnOk result (AreLeast C.ops (T.space steps.now) start self.new.list) }
    {
        self.frontier.restart(if is_dense(arcs.len(), count) {
            count
        } else {
            0
        })?;
        self.list.restart(count)?;
        let ground = Ground { steps, arcs };
        self.begin(&ground, start)?;
        self.go_on(&ground, start)?;
        Ok(())
    }

    // Begins at a vertex, where a path may begin there.
    fn begin<T: Steps<C>>(&mut self, ground: &Ground<T>, start: u32) -> Result<(), AllocError>
        requires ready { T.ready ground.now.steps.now }
        requires alone { HasArcsAlone (T.space ground.now.steps.now) }
        requires size { length self.old.list ≡ (T.space ground.now.steps.now).vertices }
        requires none { (v : ℕ) (d : C) → ¬ (slice_get self.old.list v ≡ Some (Some d)) }
        requires start { start < (T.space ground.now.steps.now).vertices }
        ensures { OnOk result (IsFront C.ops (T.space ground.now.steps.now) start self.new.list self.new.frontier Nothing) }
    {
        if !ground.steps.may_begin(start) {
            return Ok(());
        }
        self.offer(ground, start, C::ZERO)?;
        Ok(())
    }

    // Goes on from one entry of the frontier after another, the cheapest first, until none is left. A turn takes an entry that took
    // memory, so there are never as many turns as numbers.
    fn go_on<T: Steps<C>>(&mut self, ground: &Ground<T>, start: u32) -> Result<(), AllocError>
        requires ready { T.ready ground.now.steps.now }
        requires space { IsSpace C.ops (T.space ground.now.steps.now) }
        requires alone { HasArcsAlone (T.space ground.now.steps.now) }
        requires arcs { AreArcRanks C.ops C.ranked (T.space ground.now.steps.now) ground.now.arcs.now }
        requires front { IsFront C.ops (T.space ground.now.steps.now) start self.old.list self.old.frontier Nothing }
        ensures { OnOk result (AreLeast C.ops (T.space ground.now.steps.now) start self.new.list) }
    {
        for _ in 0..u64::MAX {
            match self.frontier.pop() {
                None => return Ok(()),
                Some(least) => {
                    let entry = Entry {
                        vertex: least.1,
                        cost: least.0,
                        rank: least.0.rank(),
                    };
                    self.take(ground, start, entry)?
                }
            }
        }
        Err(AllocError)
    }

    // Goes on from the vertex of an entry, unless its label has fallen since.
    fn take<T: Steps<C>>(
        &mut self,
        ground: &Ground<T>,
        start: u32,
        entry: Entry<C>,
    ) -> Result<(), AllocError>
        requires ready { T.ready ground.now.steps.now }
        requires space { IsSpace C.ops (T.space ground.now.steps.now) }
        requires alone { HasArcsAlone (T.space ground.now.steps.now) }
        requires arcs { AreArcRanks C.ops C.ranked (T.space ground.now.steps.now) ground.now.arcs.now }
        requires front { IsFront C.ops (T.space ground.now.steps.now) start self.old.list self.old.frontier (Held entry.vertex entry.cost) }
        requires least { (k : C) (w : ℕ) → Contains self.old.frontier (k, w) → NoDearer C.ops entry.cost k }
        requires rank { entry.rank ≡ C.ranked entry.cost }
        ensures { OnOk result (IsFront C.ops (T.space ground.now.steps.now) start self.new.list self.new.frontier Nothing) }
    {
        if !self.stands(entry) {
            return Ok(());
        }
        self.expand(ground, start, entry)?;
        Ok(())
    }

    // Whether the vertex of an entry still has its label.
    fn stands(&self, entry: Entry<C>) -> bool
        ensures yes { OnTrue result (slice_get self.now.list entry.vertex ≡ Some (Some entry.cost)) }
        ensures no { OnFalse result (¬ (slice_get self.now.list entry.vertex ≡ Some (Some entry.cost))) }
    {
        if entry.vertex as usize >= self.list.len() {
            return false;
        }
        is_label(self.list.get(entry.vertex), entry.cost)
    }

    // Offers a label along each arc out of the vertex of an entry, which is its label.
    fn expand<T: Steps<C>>(
        &mut self,
        ground: &Ground<T>,
        start: u32,
        entry: Entry<C>,
    ) -> Result<(), AllocError>
        requires ready { T.ready ground.now.steps.now }
        requires space { IsSpace C.ops (T.space ground.now.steps.now) }
        requires alone { HasArcsAlone (T.space ground.now.steps.now) }
        requires arcs { AreArcRanks C.ops C.ranked (T.space ground.now.steps.now) ground.now.arcs.now }
        requires front { IsFront C.ops (T.space ground.now.steps.now) start self.old.list self.old.frontier (Held entry.vertex entry.cost) }
        requires here { slice_get self.old.list entry.vertex ≡ Some (Some entry.cost) }
        requires units { C.ops.units entry.cost (2 ^ 28) }
        requires rank { entry.rank ≡ C.ranked entry.cost }
        ensures { OnOk result (IsFront C.ops (T.space ground.now.steps.now) start self.new.list self.new.frontier Nothing) }
    {
        let _count = self.list.len();
        let arcs = ground.steps.arcs(entry.vertex);
        for place in 0..arcs.len() {
            self.relax(ground, start, entry, arcs.get(place))?;
        }
        Ok(())
    }

    // Offers a label along an arc out of the vertex of an entry, where that way is open. Most offers improve nothing, and their
    // ranks tell so without their costs.
    #[inline(always)]
    fn relax<T: Steps<C>>(
        &mut self,
        ground: &Ground<T>,
        start: u32,
        entry: Entry<C>,
        arc: u32,
    ) -> Result<(), AllocError>
        requires ready { T.ready ground.now.steps.now }
        requires space { IsSpace C.ops (T.space ground.now.steps.now) }
        requires alone { HasArcsAlone (T.space ground.now.steps.now) }
        requires arcs { AreArcRanks C.ops C.ranked (T.space ground.now.steps.now) ground.now.arcs.now }
        requires vertex { entry.vertex < (T.space ground.now.steps.now).vertices }
        requires named { (T.space ground.now.steps.now).Name entry.vertex arc }
        requires reached { IsReached C.ops (T.space ground.now.steps.now) start entry.vertex entry.cost }
        requires units { C.ops.units entry.cost (2 ^ 28) }
        requires rank { entry.rank ≡ C.ranked entry.cost }
        requires front { IsFront C.ops (T.space ground.now.steps.now) start self.old.list self.old.frontier (Held entry.vertex entry.cost) }
        ensures front { OnOk result (IsFront C.ops (T.space ground.now.steps.now) start self.new.list self.new.frontier (Held entry.vertex entry.cost)) }
        ensures falls { OnOk result (LabelsFall C.ops self.old.list self.new.list) }
        ensures found { OnOk result ((w : ℕ) (s : C) → (T.space ground.now.steps.now).Arc entry.vertex arc w s → LabelWithin C.ops self.new.list w (C.ops.plus entry.cost s)) }
    {
        let _ = start;
        if self.is_over(entry.rank, ground.arcs[arc as usize]) {
            return Ok(());
        }
        match ground.steps.by_arc(entry.vertex, arc) {
            None => Ok(()),
            Some(hop) => {
                self.offer(ground, hop.head, entry.cost.plus(hop.cost))?;
                Ok(())
            }
        }
    }

    // Whether a rank and that of an arc are together no less than the rank of the label to which the arc leads.
    #[inline(always)]
    fn is_over(&self, rank: Option<u64>, arc: ArcRank) -> bool
        requires head { arc.head < length self.now.list }
        requires rank { IfSome rank (λ r. r < 2 ^ 63) }
        requires arc { arc.rank + 1 < 2 ^ 63 }
        ensures { OnTrue result (IsOverRank C.ranked self.now.list rank arc) }
    {
        match rank {
            None => false,
            Some(rank) => self.list.is_within(arc.head, rank + arc.rank),
        }
    }

    // Gives a vertex this label if it is less than the one that it has, or it has none.
    #[inline(always)]
    fn offer<T: Steps<C>>(&mut self, ground: &Ground<T>, v: u32, cost: C) -> Result<(), AllocError>
        requires ready { T.ready ground.now.steps.now }
        requires alone { HasArcsAlone (T.space ground.now.steps.now) }
        requires size { length self.old.list ≡ (T.space ground.now.steps.now).vertices }
        requires vertex { v < (T.space ground.now.steps.now).vertices }
        ensures { OnOk result (Offers C.ops (T.space ground.now.steps.now) self.old.list self.new.list self.old.frontier self.new.frontier v cost) }
    {
        if !improves(self.list.get(v), cost) {
            return Ok(());
        }
        self.lower(ground, v, cost)?;
        Ok(())
    }

    // Gives a vertex this label, which is less than the one that it has, if it has one. Where an arc leads out of it, the search
    // goes on from it later. Few offers come to this, and it stands apart so that all others stay short.
    fn lower<T: Steps<C>>(&mut self, ground: &Ground<T>, v: u32, cost: C) -> Result<(), AllocError>
        requires ready { T.ready ground.now.steps.now }
        requires alone { HasArcsAlone (T.space ground.now.steps.now) }
        requires size { length self.old.list ≡ (T.space ground.now.steps.now).vertices }
        requires vertex { v < (T.space ground.now.steps.now).vertices }
        requires less { (d : C) → slice_get self.old.list v ≡ Some (Some d) → NoDearer C.ops cost d }
        ensures { OnOk result (Offers C.ops (T.space ground.now.steps.now) self.old.list self.new.list self.old.frontier self.new.frontier v cost) }
    {
        self.list.put(v, cost);
        if ground.steps.arcs(v).is_empty() {
            return Ok(());
        }
        self.frontier.push(cost, v)?;
        Ok(())
    }
}

// Whether a space of so many vertices has many arcs a vertex.
fn is_dense(arcs: usize, count: u32) -> bool {
    arcs / DENSE >= count as usize
}

// Whether a label is this cost.
#[inline(always)]
fn is_label<C: Cost>(label: Option<C>, cost: C) -> bool
    ensures yes { OnTrue result (label ≡ Some cost) }
    ensures no { OnFalse result (¬ (label ≡ Some cost)) }
{
    match label {
        None => false,
        Some(label) => {
            label.known();
            cost.known();
            label.cmp(&cost).is_eq()
        }
    }
}

// Whether a cost is less than a label, or there is none.
#[inline(always)]
fn improves<C: Cost>(label: Option<C>, cost: C) -> bool
    ensures yes { OnTrue result ((d : C) → label ≡ Some d → NoDearer C.ops cost d) }
    ensures no { OnFalse result ((d : C) × (label ≡ Some d) × NoDearer C.ops d cost) }
{
    match label {
        None => true,
        Some(label) => cost.cmp(&label).is_lt(),
    }
}
