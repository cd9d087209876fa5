//! How many turns there are, found without a list of them.

ghost use Rattle.std.specs.Prelude.{◌≡◌, ◌*◌, ◌<◌, IfOk, OnOk, length};
ghost use Rattle.road_turns.specs.Fans.{AreExits, AreFans, AreRestricted, turns_at};
ghost use Rattle.road_turns.specs.Leaving.{AreGroups, AreLeaving, leaving_at, open_exits};
ghost use Rattle.road_turns.specs.Limits.{most_turns};
ghost use Rattle.road_segments.specs.Limits.{CountsUpTo};
ghost use Rattle.road_turns.specs.Turn.{turns};
ghost use Rattle.road_turns.specs.TurnParts.{AreOpenCounts, turns_on};
ghost use Rattle.road_segments.specs.Vertex.{vertices};

use crate::leaving::Leaving;
use crate::limits::MOST_TURNS;
use crate::restrictions::Restrictions;
use crate::turn_lists::{Exits, may_turn_back, must_turn_back, opens_back, other_way};
use road_segments::Roads;
use std::alloc::{AllocError, Global};
use std::collections::HashMap;

// How many vertices are open at a node from a way, where restrictions apply. They are found once for each way.
fn open_count(
    counts: &mut HashMap<(i64, i64), usize>,
    alloc: Global,
    leaving: &Leaving,
    restrictions: &Restrictions,
    end: (i64, i64),
) -> Result<usize, AllocError>
    requires groups { AreGroups leaving.now.runs leaving.now.groups }
    requires counts { AreOpenCounts restrictions.now.kept leaving.now.runs counts.old }
    ensures value { IfOk result (λ n. n ≡ length (open_exits restrictions.now.kept end.0 end.1 (leaving_at leaving.now.runs end.0))) }
    ensures counts { OnOk result (AreOpenCounts restrictions.now.kept leaving.now.runs counts.new) }
{
    if let Some(count) = counts.get(&end) {
        return Ok(*count);
    }
    let row = leaving.open(alloc, restrictions, end.0, end.1)?;
    let count = row.len();
    counts.insert(end, count)?;
    Ok(count)
}

// How many turns go on from a vertex: onto all of its exits where no restriction applies, and else onto the
// vertices that are open from its way, without the way back.
fn count_on(
    counts: &mut HashMap<(i64, i64), usize>,
    alloc: Global,
    roads: &Roads,
    exits: &Exits,
    restrictions: &Restrictions,
    v: u32,
) -> Result<usize, AllocError>
    requires vertex { v < 2 * length roads.now }
    requires fans { AreFans (vertices roads.now) exits.now.fans.leaving.items exits.now.fans.begins.items exits.now.fans.restricted.items exits.now.fans.nodes.items }
    requires restricted { AreRestricted (vertices roads.now) restrictions.now.kept exits.now.fans.restricted.items exits.now.fans.nodes.items }
    requires exits { AreExits (vertices roads.now) exits.now.counts.items }
    requires leaving { AreLeaving (vertices roads.now) restrictions.now.kept exits.now.leaving.runs exits.now.leaving.groups }
    requires counts { AreOpenCounts restrictions.now.kept exits.now.leaving.runs counts.old }
    ensures value { IfOk result (λ n. n ≡ length (turns_on (vertices roads.now) restrictions.now.kept v)) }
    ensures counts { OnOk result (AreOpenCounts restrictions.now.kept exits.now.leaving.runs counts.new) }
{
    let node = exits.fans.nodes[other_way(v) as usize];
    if !exits.fans.restricted[node as usize] {
        return Ok(exits.counts[v as usize] as usize);
    }
    let end = (roads.head(v), roads.way(v));
    let ahead = open_count(counts, alloc, &exits.leaving, restrictions, end)?;
    if opens_back(roads, restrictions, v, false) {
        Ok(ahead - 1)
    } else {
        Ok(ahead)
    }
}

// How many turns leave a vertex.
fn count_at(
    counts: &mut HashMap<(i64, i64), usize>,
    alloc: Global,
    roads: &Roads,
    exits: &Exits,
    restrictions: &Restrictions,
    v: u32,
) -> Result<usize, AllocError>
    requires vertex { v < 2 * length roads.now }
    requires fans { AreFans (vertices roads.now) exits.now.fans.leaving.items exits.now.fans.begins.items exits.now.fans.restricted.items exits.now.fans.nodes.items }
    requires restricted { AreRestricted (vertices roads.now) restrictions.now.kept exits.now.fans.restricted.items exits.now.fans.nodes.items }
    requires exits { AreExits (vertices roads.now) exits.now.counts.items }
    requires leaving { AreLeaving (vertices roads.now) restrictions.now.kept exits.now.leaving.runs exits.now.leaving.groups }
    requires counts { AreOpenCounts restrictions.now.kept exits.now.leaving.runs counts.old }
    ensures value { IfOk result (λ n. n ≡ length (turns_at (vertices roads.now) restrictions.now.kept v)) }
    ensures counts { OnOk result (AreOpenCounts restrictions.now.kept exits.now.leaving.runs counts.new) }
{
    if !roads.permitted(v) {
        return Ok(0);
    }
    if !must_turn_back(roads, v, exits.counts[v as usize]) {
        return count_on(counts, alloc, roads, exits, restrictions, v);
    }
    if may_turn_back(roads, restrictions, v) {
        Ok(1)
    } else {
        Ok(0)
    }
}

/// How many turns there are, or None where they are more than a network may have. Counting them takes time
/// by the segments and the members of the restrictions, and by the ways at the nodes where these apply.
#[tactic(auto, unfolding(crate::specs::Limits::most_turns))]
pub fn turn_count(
    alloc: Global,
    roads: &Roads,
    exits: &Exits,
    restrictions: &Restrictions,
) -> Result<Option<usize>, AllocError>
    requires fans { AreFans (vertices roads.now) exits.now.fans.leaving.items exits.now.fans.begins.items exits.now.fans.restricted.items exits.now.fans.nodes.items }
    requires restricted { AreRestricted (vertices roads.now) restrictions.now.kept exits.now.fans.restricted.items exits.now.fans.nodes.items }
    requires counts { AreExits (vertices roads.now) exits.now.counts.items }
    requires leaving { AreLeaving (vertices roads.now) restrictions.now.kept exits.now.leaving.runs exits.now.leaving.groups }
    ensures { IfOk result (CountsUpTo (length (turns (vertices roads.now) restrictions.now.kept)) most_turns) }
{
    let mut counts = HashMap::new(alloc);
    let mut count = 0;
    for v in 0..2 * roads.len() {
        let more = count_at(&mut counts, alloc, roads, exits, restrictions, v)?;
        count += more;
        if count > MOST_TURNS {
            return Ok(None);
        }
    }
    Ok(Some(count))
}
