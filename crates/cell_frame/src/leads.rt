//! Where a search over parts goes on from the exits of cells, found beforehand and beside the exits.

ghost use Rattle.std.specs.Prelude.{◌≡◌, ◌≢◌, ◌+◌, ◌<◌, ◌≤◌, length, slice_index, IfOk, IfSome, Some};
ghost use Rattle.std.specs.List.{slice_get};
ghost use Rattle.cell_frame.specs.Bordering.{AreBorders};
ghost use Rattle.cell_frame.specs.Borders.{HasList};
ghost use Rattle.cell_frame.specs.Leads.{AreLeads, AreLevels, IsLead};
ghost use Rattle.cell_frame.specs.Spots.{AreSpots};
ghost use Rattle.cell_frame.specs.declared.side.Side.TheVariants.{Exits};

use crate::borders::Border;
use crate::spots::{Cut, Spots};
use std::alloc::{AllocError, Global};

/// What is told of an exit that is no entry of its cell: where the arcs out of it that lead to other cells of the level stand, and
/// how many there are. Of any other none are told.
#[derive(Clone, Copy, Drop)]
pub struct Lead {
    pub first: u32,
    pub count: u32,
}

/// What is told of the exits of the cells of a level, in their order.
///
/// It costs 8 bytes an exit.
#[derive(Drop)]
pub struct Leads {
    pub list: Vec<Lead>,
}

// What is told of an exit of a level. Of a vertex of which nothing is known no arcs are told.
fn lead_of(cut: &Cut, known: &Spots, level: u32, v: u32) -> Lead
    requires known { AreSpots cut.now.graph.now cut.now.cells.now cut.now.entries.now known.now cut.now.graph.now.vertices }
    requires above { 1 ≤ level }
    requires below { level ≤ length cut.now.cells.now.levels }
    ensures { IsLead cut.now.cells.now cut.now.entries.now known.now level v result }
{
    let _ = cut;
    let none = Lead { first: 0, count: 0 };
    if v as usize >= known.spots.len() {
        return none;
    }
    let Some(tell) = known.spot(v).tell(&known.tells, level) else {
        return none;
    };
    match tell.entry() {
        Some(_) => none,
        None => Lead {
            first: tell.first,
            count: tell.count,
        },
    }
}

// What is told of the exits of the cells of a level.
fn leads_at(
    alloc: Global,
    cut: &Cut,
    known: &Spots,
    level: u32,
    exits: &[u32],
) -> Result<Leads, AllocError>
    requires known { AreSpots cut.now.graph.now cut.now.cells.now cut.now.entries.now known.now cut.now.graph.now.vertices }
    requires above { 1 ≤ level }
    requires below { level ≤ length cut.now.cells.now.levels }
    ensures { IfOk result (λ leads. AreLeads cut.now.cells.now cut.now.entries.now known.now level exits.now (length exits.now) leads.list.items) }
{
    let mut list = Vec::with_capacity(alloc, exits.len())?;
    for place in 0..exits.len() {
        list.push(lead_of(cut, known, level, exits[place]))?;
    }
    Ok(Leads { list })
}

/// What is told of the exits of all cells, level by level.
pub fn leads_of(
    alloc: Global,
    cut: &Cut,
    known: &Spots,
    exits: &[Border],
) -> Result<Vec<Leads>, AllocError>
    requires known { AreSpots cut.now.graph.now cut.now.cells.now cut.now.entries.now known.now cut.now.graph.now.vertices }
    requires exits { AreBorders cut.now.graph.now cut.now.cells.now Exits exits.now (length cut.now.cells.now.levels) }
    ensures { IfOk result (λ leads. AreLevels cut.now.cells.now cut.now.entries.now known.now exits.now (length cut.now.cells.now.levels) leads.items) }
{
    let mut leads = Vec::new(alloc);
    for below in 0..cut.cells.levels() {
        let vertices = exits[below as usize].all();
        leads.push(leads_at(alloc, cut, known, below + 1, vertices)?)?;
    }
    Ok(leads)
}

impl Leads {
    /// What is told of the exit at a place of a cell's list, if it leads on.
    #[inline(always)]
    pub fn lead(&self, exits: &Border, number: u32, place: usize) -> Option<Lead>
        requires has { HasList exits.now number }
        requires beside { length self.now.list.items ≡ length exits.now.vertex }
        ensures there { IfSome result (λ lead. slice_get self.now.list.items (slice_index exits.now.first number + place) ≡ Some lead) }
        ensures inside { IfSome result (λ lead. slice_index exits.now.first number + place < slice_index exits.now.first (number + 1)) }
        ensures some { IfSome result (λ lead. lead.count ≢ 0) }
    {
        let (first, last) = exits.span(number);
        let lead = *self.list[first..last].get(place)?;
        if lead.count == 0 {
            return None;
        }
        Some(lead)
    }
}
