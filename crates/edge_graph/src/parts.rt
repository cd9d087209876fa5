//! What a network is made of beside its roads.

ghost use Rattle.std.specs.Prelude.{◌≡◌, ◌*◌, ◌≤◌, All, IfOk, IfErr, OnOk, length};
ghost use Rattle.via_paths.specs.Copies.{copies_of};
ghost use Rattle.via_paths.specs.Forbidden.{HasPath, IsBelow, words_in};
ghost use Rattle.edge_graph.specs.BuildCause.{IsSearchedFault, IsTurnsFault};
ghost use Rattle.road_turns.specs.DepartureParts.{AreDepartures};
ghost use Rattle.road_turns.specs.Fans.{AreExits, AreFans, AreRestricted};
ghost use Rattle.road_turns.specs.Leaving.{AreLeaving};
ghost use Rattle.edge_graph.specs.Limits.{most_copies};
ghost use Rattle.road_turns.specs.Limits.{most_turns};
ghost use Rattle.edge_graph.specs.NetworkParts.{AreArcsOf, searched};
ghost use Rattle.via_restrictions.specs.ViaWays.{applied_along, forbidden_on};
ghost use Rattle.road_turns.specs.Turn.{turns};
ghost use Rattle.road_segments.specs.Limits.{most_segments};
ghost use Rattle.road_segments.specs.Vertex.{vertices};

use crate::build_faults::BuildFault;
use crate::searched::{Arcs, arcs_of, copies_for};
use road_segments::Roads;
use road_turns::{Departures, Exits, Restrictions, turn_count, turn_list};
use std::alloc::{AllocError, Global};
use via_restrictions::Found;

/// How many exits each vertex has, what the restrictions over via ways forbid, how many turns there are, and the arcs of
/// the graph that is searched.
#[derive(Drop)]
pub struct Parts {
    pub exits: Vec<u32>,
    pub found: Found,
    pub turns: u32,
    pub arcs: Arcs,
}

// All turns, unless they are more than a network may have: they are counted before any is stored.
fn turns_of(
    alloc: Global,
    roads: &Roads,
    exits: &Exits,
    restrictions: &Restrictions,
) -> Result<Vec<(u32, u32)>, BuildFault>
    requires fans { AreFans (vertices roads.now) exits.now.fans.leaving.items exits.now.fans.begins.items exits.now.fans.restricted.items exits.now.fans.nodes.items }
    requires restricted { AreRestricted (vertices roads.now) restrictions.now.kept exits.now.fans.restricted.items exits.now.fans.nodes.items }
    requires counts { AreExits (vertices roads.now) exits.now.counts.items }
    requires leaving { AreLeaving (vertices roads.now) restrictions.now.kept exits.now.leaving.runs exits.now.leaving.groups }
    ensures list { IfOk result (λ list. list.items ≡ turns (vertices roads.now) restrictions.now.kept) }
    ensures few { OnOk result (length (turns (vertices roads.now) restrictions.now.kept) ≤ most_turns) }
    ensures err { IfErr result (IsTurnsFault (length (turns (vertices roads.now) restrictions.now.kept))) }
{
    let Some(count) = turn_count(alloc, roads, exits, restrictions)? else {
        return Err(BuildFault::TooManyTurns);
    };
    Ok(turn_list(alloc, roads, exits, restrictions, count)?)
}

// How many exits each vertex has, and all turns. What else they are found by is let go of here.
fn counts_and_turns(
    alloc: Global,
    roads: &Roads,
    restrictions: &Restrictions,
    exits: Exits,
) -> Result<(Vec<u32>, Vec<(u32, u32)>), BuildFault>
    requires fans { AreFans (vertices roads.now) exits.fans.leaving.items exits.fans.begins.items exits.fans.restricted.items exits.fans.nodes.items }
    requires restricted { AreRestricted (vertices roads.now) restrictions.now.kept exits.fans.restricted.items exits.fans.nodes.items }
    requires counts { AreExits (vertices roads.now) exits.counts.items }
    requires leaving { AreLeaving (vertices roads.now) restrictions.now.kept exits.leaving.runs exits.leaving.groups }
    ensures counts { IfOk result (λ found. AreExits (vertices roads.now) found.0.items) }
    ensures list { IfOk result (λ found. found.1.items ≡ turns (vertices roads.now) restrictions.now.kept) }
    ensures few { OnOk result (length (turns (vertices roads.now) restrictions.now.kept) ≤ most_turns) }
    ensures err { IfErr result (IsTurnsFault (length (turns (vertices roads.now) restrictions.now.kept))) }
{
    let turns = turns_of(alloc, roads, &exits, restrictions)?;
    Ok((exits.counts, turns))
}

/// The parts of the network of these roads. The copies of vertices are counted before the turns, and these before any is
/// stored.
pub fn parts_of(
    alloc: Global,
    roads: &Roads,
    departures: &Departures,
    restrictions: &Restrictions,
) -> Result<Parts, BuildFault>
    requires few { length roads.now ≤ most_segments }
    requires departures { AreDepartures (vertices roads.now) departures.now.order.items }
    ensures exits { IfOk result (λ p. AreExits (vertices roads.now) p.exits.items) }
    ensures words { IfOk result (λ p. words_in p.found.groups.items ≡ forbidden_on roads.now restrictions.now) }
    ensures paths { IfOk result (λ p. All HasPath p.found.groups.items) }
    ensures below { IfOk result (λ p. All (IsBelow (2 * length roads.now)) p.found.groups.items) }
    ensures applied { IfOk result (λ p. p.found.applied ≡ applied_along roads.now restrictions.now) }
    ensures few { IfOk result (λ p. p.found.applied ≤ length restrictions.now.along) }
    ensures turns { IfOk result (λ p. p.turns ≡ length (turns (vertices roads.now) restrictions.now.kept)) }
    ensures arcs { IfOk result (λ p. AreArcsOf (2 * length roads.now) (turns (vertices roads.now) restrictions.now.kept) (forbidden_on roads.now restrictions.now) p.arcs.stands_for.items p.arcs.list.items) }
    ensures few_copies { OnOk result (length (copies_of (forbidden_on roads.now restrictions.now)) ≤ most_copies) }
    ensures err { IfErr result (IsSearchedFault (length (copies_of (forbidden_on roads.now restrictions.now))) (length (searched roads.now restrictions.now).arcs)) }
{
    let exits = Exits::of(alloc, roads, departures, restrictions)?;
    let found = Found::of(alloc, roads, departures, restrictions, &exits.counts)?;
    let copies = copies_for(alloc, 2 * roads.len(), &found.groups)?;
    let (exits, list) = counts_and_turns(alloc, roads, restrictions, exits)?;
    let turns = list.len() as u32;
    let arcs = arcs_of(alloc, copies, list)?;
    Ok(Parts {
        exits,
        found,
        turns,
        arcs,
    })
}
