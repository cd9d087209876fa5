//! Searches over a ring of six vertices, of which vertex 3 is closed: an arc leads one further, and a row of one place two
//! further.

ghost use Rattle.std.specs.Prelude.{◌≡◌, IfOk};
ghost use Rattle.search_graph.specs.RoadCosts.{road_cost_ops};
ghost use Rattle.search_graph.specs.declared.costs.WeightDurLen.{WeightDurLen};
ghost use Rattle.step_search.specs.Paths.{AreStarts};
ghost use Rattle.step_search.specs.UnderWay.{IsUnderWay};
ghost use Rattle.worked_graphs.specs.RingOfSix.{AreOfRing, ring_of_six};

use cost_lists::{CostList, CostRow};
use cost_texts::{cost_told, vertices_told};
use search_graph::{ArcRow, Start, WeightDurLen};
use std::alloc::{AllocError, Global};
use std::process::Abort;
use step_search::{Hop, Reached, Search, Steps, least};

// Where each vertex's row leads, and what its place costs where that is open.
#[derive(Drop)]
struct Ring {
    heads: [u32; 6],
    costs: CostList<WeightDurLen>,
}

fn new_ring(alloc: Global) -> Result<Ring, AllocError>
    ensures { IfOk result (λ r. AreOfRing r.heads r.costs) }
{
    let mut costs = CostList::new(alloc);
    costs.push(Some(cost(5, 2)))?;
    Ok(Ring {
        heads: [2, 3, 4, 5, 0, 1],
        costs,
    })
}

// A cost of the weight of its duration.
fn cost(duration: u64, length: u64) -> WeightDurLen
    ensures { result ≡ record { weight = duration; duration = duration; length = length } }
{
    WeightDurLen {
        weight: duration,
        duration,
        length,
    }
}

impl Steps<WeightDurLen> for Ring {
    ghost space = { λ s. ring_of_six };

    ghost ready = { λ s. AreOfRing s.heads s.costs };

    fn may_begin(&self, v: u32) -> bool {
        v != 3
    }

    fn arcs(&self, v: u32) -> ArcRow<'_> {
        let _ = v;
        ArcRow::range(0, 1)
    }

    fn by_arc(&self, v: u32, i: u32) -> Option<Hop<WeightDurLen>> {
        let _ = i;
        let head = (v + 1) % 6;
        if head == 3 {
            return None;
        }
        Some(Hop {
            head,
            cost: cost(3, 1),
        })
    }

    fn heads(&self, v: u32) -> &[u32] {
        &self.heads[v as usize..v as usize + 1]
    }

    fn costs(&self, v: u32) -> CostRow<'_, WeightDurLen> {
        if v == 1 {
            return CostRow::empty();
        }
        self.costs.row(0, 1)
    }

    fn row(&self, v: u32) -> (u32, u32) {
        (0, v)
    }
}

// What each path costs, and its vertices, with a bar behind it; `-` for none.
fn paths_told(
    alloc: Global,
    found: &[Option<Reached<WeightDurLen>>],
) -> Result<String, AllocError> {
    let mut text = String::new(alloc);
    for path in found {
        text.push_str(cost_told(alloc, path.as_ref().map(|path| path.cost))?.as_str())?;
        if let Some(path) = path {
            text.push_str(vertices_told(alloc, path.walk.as_slice())?.as_str())?;
        }
        text.push_str("| ")?;
    }
    Ok(text)
}

// The cheapest paths from vertex 0 to these targets.
fn least_told(alloc: Global, ring: &Ring, targets: &[u32]) -> Result<String, AllocError>
    requires { AreOfRing ring.now.heads ring.now.costs }
{
    let starts = [Start {
        vertex: 0,
        cost: cost(1, 0),
    }];
    let found = least(alloc, ring, &starts, targets)?;
    paths_told(alloc, &found)
}

#[test]
fn the_cheapest_way_round_leaves_out_the_closed_vertex(rt: HostRuntime) -> Result<(), AllocError> {
    let ring = new_ring(rt.alloc())?;
    let told = least_told(rt.alloc(), &ring, &[0, 3])?;
    assert_eq!(rt; told.as_str(), "16/16/6 0 2 4 0 | - | ");
    Ok(())
}

// What a cheapest path from the starts costs, by a search that begins anew.
fn cost_anew(
    search: &mut Search<WeightDurLen>,
    ring: &Ring,
    starts: &[Start<WeightDurLen>],
    until: u32,
) -> Result<Option<WeightDurLen>, AllocError>
    requires ready { AreOfRing ring.now.heads ring.now.costs }
    requires starts { AreStarts road_cost_ops ring_of_six starts.now }
{
    search.restart(ring, starts)?;
    search.run(ring, starts, until)?;
    Ok(search.cost(ring, starts, until))
}

// Asserts that a search knows nothing of the one before it.
fn assert_forgetful(
    rt: &impl Abort,
    search: &mut Search<WeightDurLen>,
    ring: &Ring,
) -> Result<(), AllocError>
    requires { AreOfRing ring.now.heads ring.now.costs }
{
    let first = [Start {
        vertex: 0,
        cost: cost(1, 0),
    }];
    assert_eq!(rt; cost_anew(search, ring, &first, 4)?, Some(cost(11, 4)));
    let second = [Start {
        vertex: 4,
        cost: cost(0, 0),
    }];
    assert_eq!(rt; cost_anew(search, ring, &second, 1)?, Some(cost(8, 3)));
    Ok(())
}

#[test]
fn a_search_that_begins_anew_forgets_where_it_began(rt: HostRuntime) -> Result<(), AllocError> {
    let ring = new_ring(rt.alloc())?;
    let mut search = Search::new(rt.alloc());
    assert_forgetful(&rt, &mut search, &ring)
}

// Asserts which of some targets is told.
fn assert_first(
    rt: &impl Abort,
    search: &mut Search<WeightDurLen>,
    ring: &Ring,
) -> Result<(), AllocError>
    requires { AreOfRing ring.now.heads ring.now.costs }
{
    let starts = [Start {
        vertex: 0,
        cost: cost(1, 0),
    }];
    search.restart(ring, &starts)?;
    let first = search.run_first(ring, &starts, &[3, 4, 2])?;
    assert_eq!(rt; first, Some(2));
    let none = search.run_first(ring, &starts, &[3])?;
    assert_eq!(rt; none, None);
    Ok(())
}

#[test]
fn the_nearer_of_two_targets_is_told_first(rt: HostRuntime) -> Result<(), AllocError> {
    let ring = new_ring(rt.alloc())?;
    let mut search = Search::new(rt.alloc());
    assert_first(&rt, &mut search, &ring)
}

// What a cheapest path to vertex 4 costs, by a search that ends as soon as it has a path that costs as little as is known.
fn cost_by_known(
    rt: &impl Abort,
    search: &mut Search<WeightDurLen>,
    ring: &Ring,
    starts: &[Start<WeightDurLen>],
) -> Result<Option<WeightDurLen>, AllocError>
    requires ready { AreOfRing ring.now.heads ring.now.costs }
    requires starts { AreStarts road_cost_ops ring_of_six starts.now }
    requires under_way { IsUnderWay road_cost_ops ring_of_six starts.now search.old }
{
    search.run(ring, starts, 4)?;
    let Some(known) = search.cost(ring, starts, 4) else {
        panic!(rt; "there is a way to 4");
    };
    search.restart(ring, starts)?;
    search.run_to(ring, starts, 4, known)?;
    Ok(search.cost(ring, starts, 4))
}

#[test]
fn what_is_known_to_be_least_ends_the_search(rt: HostRuntime) -> Result<(), AllocError> {
    let ring = new_ring(rt.alloc())?;
    let starts = [Start {
        vertex: 0,
        cost: cost(1, 0),
    }];
    let mut search = Search::begin(rt.alloc(), &ring, &starts)?;
    assert_eq!(rt;
        cost_by_known(&rt, &mut search, &ring, &starts)?,
        Some(cost(11, 4))
    );
    Ok(())
}
