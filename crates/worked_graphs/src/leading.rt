//! Searches over a ring of six vertices whose rows lead on: vertices 0, 1 and 2 are a cell, which is entered at 0, and from
//! there a row leads to 1 and 2, out of which nothing but arcs leads.

ghost use Rattle.std.specs.Prelude.{◌≡◌, IfOk};
ghost use Rattle.search_graph.specs.declared.costs.WeightDurLen.{WeightDurLen};
ghost use Rattle.worked_graphs.specs.LeadingRing.{AreOfLeadingRing, leading_ring};

use cost_lists::{CostList, CostRow};
use cost_texts::{cost_told, vertices_told};
use search_graph::{ArcRow, Start, WeightDurLen};
use std::alloc::{AllocError, Global};
use std::process::Abort;
use step_search::{Hop, Search, Steps};

// Where the cell's row leads, and what its places cost out of vertex 0.
#[derive(Drop)]
struct Leading {
    heads: [u32; 2],
    costs: CostList<WeightDurLen>,
}

fn new_leading(alloc: Global) -> Result<Leading, AllocError>
    ensures { IfOk result (λ r. AreOfLeadingRing r.heads r.costs) }
{
    let mut costs = CostList::new(alloc);
    costs.push(Some(cost(2, 2)))?;
    costs.push(Some(cost(2, 2)))?;
    Ok(Leading {
        heads: [1, 2],
        costs,
    })
}

// A cost of the weight of its duration.
fn cost(duration: u64, length: u64) -> WeightDurLen
    ensures { result ≡ record { weight = duration; duration = duration; length = length } }
{
    WeightDurLen {
        weight: duration,
        duration,
        length,
    }
}

impl Steps<WeightDurLen> for Leading {
    ghost space = { λ s. leading_ring };

    ghost ready = { λ s. AreOfLeadingRing s.heads s.costs };

    fn may_begin(&self, v: u32) -> bool {
        v < 6
    }

    fn arcs(&self, v: u32) -> ArcRow<'_> {
        let _ = v;
        ArcRow::range(0, 1)
    }

    fn by_arc(&self, v: u32, i: u32) -> Option<Hop<WeightDurLen>> {
        let _ = i;
        Some(Hop {
            head: (v + 1) % 6,
            cost: cost(3, 1),
        })
    }

    fn heads(&self, v: u32) -> &[u32] {
        if v < 3 {
            return &self.heads;
        }
        &[]
    }

    fn costs(&self, v: u32) -> CostRow<'_, WeightDurLen> {
        if v == 0 {
            return self.costs.row(0, 2);
        }
        CostRow::empty()
    }

    fn row(&self, v: u32) -> (u32, u32) {
        if v < 3 {
            return (1, 0);
        }
        (0, 0)
    }

    fn leads_on(&self, row: (u32, u32), place: usize, v: u32) -> Option<ArcRow<'_>> {
        let _ = row;
        let _ = place;
        if v == 0 {
            return None;
        }
        if v > 2 {
            return None;
        }
        Some(self.arcs(v))
    }
}

// What a cheapest path from vertex 0, where 1 is paid, costs, and its vertices; `-` for none.
fn path_told(
    alloc: Global,
    search: &mut Search<WeightDurLen>,
    ring: &Leading,
    target: u32,
) -> Result<String, AllocError>
    requires { AreOfLeadingRing ring.now.heads ring.now.costs }
{
    let starts = [Start {
        vertex: 0,
        cost: cost(1, 0),
    }];
    search.restart(ring, &starts)?;
    search.run(ring, &starts, target)?;
    let found = search.answer(alloc, ring, &starts, target)?;
    let mut text = cost_told(alloc, found.as_ref().map(|path| path.cost))?;
    if let Some(path) = found {
        text.push_str(vertices_told(alloc, path.walk.as_slice())?.as_str())?;
    }
    Ok(text)
}

#[test]
fn exits_lead_on_by_their_arcs(rt: HostRuntime) -> Result<(), AllocError> {
    let ring = new_leading(rt.alloc())?;
    let mut search = Search::new(rt.alloc());
    let told = path_told(rt.alloc(), &mut search, &ring, 3)?;
    assert_eq!(rt; told.as_str(), "6/6/3 0 2 3 ");
    let told = path_told(rt.alloc(), &mut search, &ring, 0)?;
    assert_eq!(rt; told.as_str(), "15/15/6 0 2 3 4 5 0 ");
    Ok(())
}

#[test]
fn an_exit_is_a_target_though_it_is_not_queued(rt: HostRuntime) -> Result<(), AllocError> {
    let ring = new_leading(rt.alloc())?;
    let mut search = Search::new(rt.alloc());
    let told = path_told(rt.alloc(), &mut search, &ring, 1)?;
    assert_eq!(rt; told.as_str(), "3/3/2 0 1 ");
    let told = path_told(rt.alloc(), &mut search, &ring, 2)?;
    assert_eq!(rt; told.as_str(), "3/3/2 0 2 ");
    assert_exit_first(&rt, &mut search, &ring)
}

// Asserts that exits are told among targets, and below a limit.
fn assert_exit_first(
    rt: &impl Abort,
    search: &mut Search<WeightDurLen>,
    ring: &Leading,
) -> Result<(), AllocError>
    requires { AreOfLeadingRing ring.now.heads ring.now.costs }
{
    let starts = [Start {
        vertex: 0,
        cost: cost(1, 0),
    }];
    search.restart(ring, &starts)?;
    let first = search.run_first(ring, &starts, &[2])?;
    assert_eq!(rt; first, Some(0));
    search.restart(ring, &starts)?;
    let done = search.run_below(ring, &starts, 2, cost(4, 0))?;
    assert_eq!(rt; done, true);
    search.restart(ring, &starts)?;
    let done = search.run_below(ring, &starts, 2, cost(3, 0))?;
    assert_eq!(rt; done, false);
    Ok(())
}
