//! One shortcut opened: a cheapest walk inside its cell, over the cells one level down.

ghost use Rattle.std.specs.Prelude.{◌≡◌, ◌≢◌, ◌-◌, ◌∷◌, [], IfOk, IfSome, OnOk, Some};
ghost use Rattle.std.specs.List.{slice_get};
ghost use Rattle.step_search.specs.UnderWay.{IsUnderWay, IsDone};
ghost use Rattle.cell_frame.specs.Borders.{Holds, IsCell, at_cell};
ghost use Rattle.cell_frame.specs.Cliqued.{AreExact};
ghost use Rattle.cell_frame.specs.Inside.{IsLeastInside};
ghost use Rattle.cell_customize.specs.Inner.{IsInner, inner_space};
ghost use Rattle.overlay_query.specs.Packed.{IsBy};
ghost use Rattle.path_unpack.specs.Finer.{IsOverlay, Opens, AreUpTo};

use crate::overlay::Overlay;
use cell_frame::{Below, Cell, Frame, Over};
use overlay_query::{Hop, pack};
use search_graph::{Cost, Start};
use std::alloc::{AllocError, Global};
use step_search::Search;

// The place of a vertex among the exits of a cell.
fn exit_place(frame: &Frame, cell: Cell, v: u32) -> Option<usize>
    requires { IsCell frame.now.cells cell }
    ensures { IfSome result (λ i. slice_get (at_cell frame.now.exits cell) i ≡ Some v) }
{
    match frame.exits(cell).binary_search(&v) {
        Ok(i) => Some(i),
        Err(_) => None,
    }
}

// What a cheapest walk inside the cell costs from an entry to an exit, as the cell's clique has it.
fn cost_inside<C: Cost>(over: &Over<C, Below>, entry: u32, exit: u32) -> Option<C>
    requires cell { IsCell over.now.frame.now.cells over.now.parts.now.cell }
    requires exact { AreExact C.ops over.now.frame.now over.now.weights.now over.now.cliques.now over.now.parts.now.cell.level }
    ensures { IfSome result (IsLeastInside C.ops over.now.frame.now.graph over.now.weights.now (Holds over.now.frame.now.cells over.now.parts.now.cell) entry exit) }
{
    let cell = over.parts.cell;
    let Some(from) = over.frame.entry(cell, entry) else {
        return None;
    };
    let Some(to) = exit_place(over.frame, cell, exit) else {
        return None;
    };
    over.cliques.row(over.frame, cell, from).get(to)
}

// Goes on from the entry until the exit's label is what the shortcut costs. What lies around that is left, since no walk
// inside the cell costs less.
fn run_across<C: Cost>(
    over: &Over<C, Below>,
    search: &mut Search<C>,
    starts: &[Start<C>],
    entry: u32,
    exit: u32,
) -> Result<(), AllocError>
    requires inner { IsInner C.ops over.now.frame.now over.now.weights.now over.now.cliques.now over.now.parts.now.cell }
    requires exact { AreExact C.ops over.now.frame.now over.now.weights.now over.now.cliques.now over.now.parts.now.cell.level }
    requires starts { starts.now ≡ record { vertex = entry; cost = C.ops.zero } ∷ [] }
    requires shortcut { (s : _) × IsBy C.ops over.now.frame.now over.now.weights.now entry exit (Some over.now.parts.now.cell) s }
    requires apart { entry ≢ exit }
    requires under_way { IsUnderWay C.ops (inner_space C.ops over.now.frame.now over.now.weights.now over.now.parts.now.cell) starts.now search.old }
    ensures under_way { OnOk result (IsUnderWay C.ops (inner_space C.ops over.now.frame.now over.now.weights.now over.now.parts.now.cell) starts.now search.new) }
    ensures done { OnOk result (IsDone C.ops (inner_space C.ops over.now.frame.now over.now.weights.now over.now.parts.now.cell) starts.now search.new exit) }
{
    match cost_inside(over, entry, exit) {
        Some(known) => search.run_to(over, starts, exit, known),
        None => search.run(over, starts, exit),
    }
}

// The hops of a cheapest walk inside the cell from an entry, where the search begins anew, to an exit.
fn opened_over<C: Cost>(
    alloc: Global,
    over: &Over<C, Below>,
    search: &mut Search<C>,
    starts: &[Start<C>],
    entry: u32,
    exit: u32,
) -> Result<Vec<Hop>, AllocError>
    requires inner { IsInner C.ops over.now.frame.now over.now.weights.now over.now.cliques.now over.now.parts.now.cell }
    requires exact { AreExact C.ops over.now.frame.now over.now.weights.now over.now.cliques.now over.now.parts.now.cell.level }
    requires starts { starts.now ≡ record { vertex = entry; cost = C.ops.zero } ∷ [] }
    requires shortcut { (s : _) × IsBy C.ops over.now.frame.now over.now.weights.now entry exit (Some over.now.parts.now.cell) s }
    ensures opens { IfOk result (λ run. Opens C.ops over.now.frame.now over.now.weights.now entry exit (Some over.now.parts.now.cell) run.items) }
    ensures below { IfOk result (λ run. AreUpTo (over.now.parts.now.cell.level - 1) run.items) }
{
    if entry == exit {
        return Ok(Vec::new(alloc));
    }
    search.restart(over, starts)?;
    run_across(over, search, starts, entry, exit)?;
    match search.answer(alloc, over, starts, exit)? {
        None => Ok(Vec::new(alloc)),
        Some(path) => {
            let hops = pack(alloc, over.frame, over.parts, &path.walk)?;
            Ok(hops)
        }
    }
}

// One start, at no cost.
fn one_start<C: Cost>(alloc: Global, entry: u32) -> Result<Vec<Start<C>>, AllocError>
    ensures { IfOk result (λ starts. starts.items ≡ record { vertex = entry; cost = C.ZERO } ∷ []) }
{
    let mut starts = Vec::new(alloc);
    starts.push(Start {
        vertex: entry,
        cost: C::ZERO,
    })?;
    Ok(starts)
}

/// The hops of a cheapest walk inside a cell from an entry to an exit, over the cells one level down. The search begins
/// anew for it.
pub fn opened<C: Cost>(
    alloc: Global,
    overlay: &Overlay<C>,
    search: &mut Search<C>,
    cell: Cell,
    entry: u32,
    exit: u32,
) -> Result<Vec<Hop>, AllocError>
    requires overlay { IsOverlay C.ops overlay.now.frame.now overlay.now.weights.now overlay.now.cliques.now }
    requires shortcut { (s : _) × IsBy C.ops overlay.now.frame.now overlay.now.weights.now entry exit (Some cell) s }
    ensures opens { IfOk result (λ run. Opens C.ops overlay.now.frame.now overlay.now.weights.now entry exit (Some cell) run.items) }
    ensures below { IfOk result (λ run. AreUpTo (cell.level - 1) run.items) }
{
    let parts = Below { cell };
    parts.borders(overlay.frame);
    let over = Over {
        frame: overlay.frame,
        weights: overlay.weights,
        cliques: overlay.cliques,
        parts: &parts,
    };
    over.known();
    let starts = one_start(alloc, entry)?;
    let run = opened_over(alloc, &over, search, starts.as_slice(), entry, exit)?;
    Ok(run)
}
