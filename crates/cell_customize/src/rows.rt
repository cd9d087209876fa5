//! The clique of one cell, row by row.

ghost use Rattle.std.specs.Prelude.{◌≡◌, ◌-◌, ◌++◌, Some, length, OnOk};
ghost use Rattle.std.specs.List.{Contains, slice_get};
ghost use Rattle.cell_frame.specs.Borders.{IsCell, Holds, at_cell};
ghost use Rattle.cell_frame.specs.Cliqued.{IsRow, AreExact};
ghost use Rattle.cell_frame.specs.Inside.{IsInsideValue};
ghost use Rattle.search_graph.specs.Weighted.{AreSmall};
ghost use Rattle.cell_customize.specs.Inner.{IsInner};
ghost use Rattle.cell_customize.specs.Leaping.{AreRanksOf};
ghost use Rattle.cell_customize.specs.Levels.{IsClique};
ghost use Rattle.label_search.specs.Least.{AreLeast};
ghost use Rattle.cell_customize.specs.Filled.{IsFilled, IsLeapt, leapt_space};

use crate::leaping::Leaping;
use crate::renamed::Renamed;
use crate::scratch::Scratch;
use cell_frame::{Below, Cell, Cliques, Frame, Over};
use cost_lists::CostList;
use label_search::Labels;
use search_graph::{Cost, Weights};
use std::alloc::AllocError;

// What it costs to stay at an entry: nothing, where it is open.
fn nothing_paid<C: Cost>(over: &Over<C, Below>, entry: u32) -> Option<C>
    requires inner { IsInner C.ops over.now.frame.now over.now.weights.now over.now.cliques.now over.now.parts.now.cell }
    requires entry { Contains (at_cell over.now.frame.now.entries over.now.parts.now.cell) entry }
    ensures { IsInsideValue C.ops over.now.frame.now.graph over.now.weights.now (Holds over.now.frame.now.cells over.now.parts.now.cell) entry entry result }
{
    match over.weights.vertex(entry) {
        None => None,
        Some(_) => Some(C::ZERO),
    }
}

// What the cheapest walk costs inside the cell from the entry at which the search began to an exit, by the labels.
fn inside<C: Cost>(
    leaping: &Leaping<C, Renamed<C, Over<C, Below>>>,
    labels: &Labels<C>,
    entry: u32,
    start: u32,
    exit: u32,
) -> Option<C>
    requires inner { IsInner C.ops leaping.now.steps.now.steps.now.frame.now leaping.now.steps.now.steps.now.weights.now leaping.now.steps.now.steps.now.cliques.now leaping.now.steps.now.steps.now.parts.now.cell }
    requires filled { IsFilled C.ops leaping.now.steps.now.steps.now.frame.now leaping.now.steps.now.steps.now.weights.now leaping.now.steps.now.steps.now.parts.now.cell leaping.now.steps.now.local.now }
    requires leapt { IsLeapt C.ops leaping.now.steps.now.steps.now.frame.now leaping.now.steps.now.steps.now.weights.now leaping.now.steps.now.steps.now.parts.now.cell leaping.now.steps.now.local.now leaping.now.leaps.now }
    requires entry { Contains (at_cell leaping.now.steps.now.steps.now.frame.now.entries leaping.now.steps.now.steps.now.parts.now.cell) entry }
    requires exit { Contains (at_cell leaping.now.steps.now.steps.now.frame.now.exits leaping.now.steps.now.steps.now.parts.now.cell) exit }
    requires start { slice_get leaping.now.steps.now.local.now.numbers start ≡ Some entry }
    requires least { AreLeast C.ops (leapt_space C.ops leaping.now.steps.now.steps.now.frame.now leaping.now.steps.now.steps.now.weights.now leaping.now.steps.now.steps.now.parts.now.cell leaping.now.steps.now.local.now leaping.now.leaps.now) start labels.now.list }
    ensures { IsInsideValue C.ops leaping.now.steps.now.steps.now.frame.now.graph leaping.now.steps.now.steps.now.weights.now (Holds leaping.now.steps.now.steps.now.frame.now.cells leaping.now.steps.now.steps.now.parts.now.cell) entry exit result }
{
    if entry == exit {
        return nothing_paid(leaping.steps.steps, entry);
    }
    match leaping.steps.local.numbers.number(exit) {
        None => None,
        Some(until) => labels.list.get(until),
    }
}

// Puts at the end of the values the least costs inside the cell from an entry to each of its exits, none where there
// is no walk.
fn row<C: Cost>(
    leaping: &Leaping<C, Renamed<C, Over<C, Below>>>,
    labels: &mut Labels<C>,
    entry: u32,
    exits: &[u32],
    values: &mut CostList<C>,
) -> Result<(), AllocError>
    requires inner { IsInner C.ops leaping.now.steps.now.steps.now.frame.now leaping.now.steps.now.steps.now.weights.now leaping.now.steps.now.steps.now.cliques.now leaping.now.steps.now.steps.now.parts.now.cell }
    requires filled { IsFilled C.ops leaping.now.steps.now.steps.now.frame.now leaping.now.steps.now.steps.now.weights.now leaping.now.steps.now.steps.now.parts.now.cell leaping.now.steps.now.local.now }
    requires leapt { IsLeapt C.ops leaping.now.steps.now.steps.now.frame.now leaping.now.steps.now.steps.now.weights.now leaping.now.steps.now.steps.now.parts.now.cell leaping.now.steps.now.local.now leaping.now.leaps.now }
    requires ranks { AreRanksOf C.ops C.ranked leaping.now.leaps.now.gathering.hops.items leaping.now.leaps.now.ranks.items }
    requires entry { Contains (at_cell leaping.now.steps.now.steps.now.frame.now.entries leaping.now.steps.now.steps.now.parts.now.cell) entry }
    requires exits { exits.now ≡ at_cell leaping.now.steps.now.steps.now.frame.now.exits leaping.now.steps.now.steps.now.parts.now.cell }
    ensures { OnOk result ((row : _) × (values.new ≡ values.old ++ row) × IsRow C.ops leaping.now.steps.now.steps.now.frame.now leaping.now.steps.now.steps.now.weights.now leaping.now.steps.now.steps.now.parts.now.cell entry row) }
{
    let numbers = &leaping.steps.local.numbers;
    let start = numbers.number(entry).unwrap();
    labels.search(
        leaping,
        leaping.leaps.ranks.as_slice(),
        start,
        numbers.len() as u32,
    )?;
    for exit in exits {
        values.push(inside(leaping, labels, entry, start, *exit))?;
    }
    Ok(())
}

// Puts at the end of the values the row of each entry, one behind another.
fn rows<C: Cost>(
    leaping: &Leaping<C, Renamed<C, Over<C, Below>>>,
    labels: &mut Labels<C>,
    entries: &[u32],
    exits: &[u32],
    values: &mut CostList<C>,
) -> Result<(), AllocError>
    requires inner { IsInner C.ops leaping.now.steps.now.steps.now.frame.now leaping.now.steps.now.steps.now.weights.now leaping.now.steps.now.steps.now.cliques.now leaping.now.steps.now.steps.now.parts.now.cell }
    requires filled { IsFilled C.ops leaping.now.steps.now.steps.now.frame.now leaping.now.steps.now.steps.now.weights.now leaping.now.steps.now.steps.now.parts.now.cell leaping.now.steps.now.local.now }
    requires leapt { IsLeapt C.ops leaping.now.steps.now.steps.now.frame.now leaping.now.steps.now.steps.now.weights.now leaping.now.steps.now.steps.now.parts.now.cell leaping.now.steps.now.local.now leaping.now.leaps.now }
    requires ranks { AreRanksOf C.ops C.ranked leaping.now.leaps.now.gathering.hops.items leaping.now.leaps.now.ranks.items }
    requires entries { entries.now ≡ at_cell leaping.now.steps.now.steps.now.frame.now.entries leaping.now.steps.now.steps.now.parts.now.cell }
    requires exits { exits.now ≡ at_cell leaping.now.steps.now.steps.now.frame.now.exits leaping.now.steps.now.steps.now.parts.now.cell }
    ensures { OnOk result ((clique : _) × (values.new ≡ values.old ++ clique) × IsClique C.ops leaping.now.steps.now.steps.now.frame.now leaping.now.steps.now.steps.now.weights.now leaping.now.steps.now.steps.now.parts.now.cell clique) }
{
    for entry in entries {
        row(leaping, labels, *entry, exits, values)?;
    }
    Ok(())
}

// The same, over the vertices to which the searches come, under numbers of their own, by leaps.
fn all_rows<C: Cost>(
    over: &Over<C, Below>,
    scratch: &mut Scratch<C>,
    entries: &[u32],
    exits: &[u32],
    values: &mut CostList<C>,
) -> Result<(), AllocError>
    requires inner { IsInner C.ops over.now.frame.now over.now.weights.now over.now.cliques.now over.now.parts.now.cell }
    requires entries { entries.now ≡ at_cell over.now.frame.now.entries over.now.parts.now.cell }
    requires exits { exits.now ≡ at_cell over.now.frame.now.exits over.now.parts.now.cell }
    ensures { OnOk result ((clique : _) × (values.new ≡ values.old ++ clique) × IsClique C.ops over.now.frame.now over.now.weights.now over.now.parts.now.cell clique) }
{
    let count = over.frame.graph().vertices();
    scratch.local.numbers.room(count)?;
    scratch.local.fill(over, entries)?;
    scratch.local.numbers.known();
    let local = &scratch.local;
    let small = Renamed { steps: over, local };
    scratch.leaps.fill(&small, &local.numbers, exits)?;
    let leaping = Leaping {
        steps: &small,
        leaps: &scratch.leaps,
    };
    rows(&leaping, &mut scratch.labels, entries, exits, values)
}

/// Puts at the end of the values the least costs inside a cell from each of its entries to each of its exits, none
/// where there is no walk, by the cliques of the level below: the row of each entry, one behind another.
///
/// The scratch may be any: it is filled anew, and its search begun anew at each entry, in the memory that it has.
pub fn clique<C: Cost>(
    frame: &Frame,
    weights: &Weights<C>,
    cliques: &Cliques<C>,
    cell: Cell,
    scratch: &mut Scratch<C>,
    values: &mut CostList<C>,
) -> Result<(), AllocError>
    requires weights { AreSmall C.ops frame.now.graph weights.now }
    requires cell { IsCell frame.now.cells cell }
    requires cliques { AreExact C.ops frame.now weights.now cliques.now (cell.level - 1) }
    ensures { OnOk result ((clique : _) × (values.new ≡ values.old ++ clique) × IsClique C.ops frame.now weights.now cell clique) }
{
    let parts = Below { cell };
    parts.borders(frame);
    let over = Over {
        frame,
        weights,
        cliques,
        parts: &parts,
    };
    over.known();
    all_rows(
        &over,
        scratch,
        frame.entries(cell),
        frame.exits(cell),
        values,
    )
}
