//! The exits of each vertex, and the list of all turns.

ghost use Rattle.std.specs.Prelude.{◌≡◌, ◌==◌, true, not, ◌-◌, ◌*◌, ◌<◌, ◌≤◌, ◌++◌, IfOk, OnOk, drop, length, take};
ghost use Rattle.road_turns.specs.DepartureParts.{AreDepartures};
ghost use Rattle.road_turns.specs.Fans.{AreExits, AreFans, AreRestricted, turns_at};
ghost use Rattle.road_turns.specs.Leaving.{AreGroups, AreLeaving, leaving_at, open_exits};
ghost use Rattle.road_turns.specs.Turn.{exits, turns};
ghost use Rattle.road_turns.specs.TurnParts.{AreOpenRows, may_turn_back, must_turn_back, opens_back, turns_on, turns_onto};
ghost use Rattle.road_segments.specs.Vertex.{opposite, vertices};

use crate::departures::Departures;
use crate::fans::Fans;
use crate::leaving::Leaving;
use crate::restrictions::Restrictions;
use road_segments::Roads;
use std::alloc::{AllocError, Global};
use std::collections::HashMap;

/// What leaves the nodes of a network: how many exits each vertex has, the vertices at each node, and those
/// at the nodes where restrictions apply by their ways.
#[derive(Drop)]
pub struct Exits {
    pub counts: Vec<u32>,
    pub fans: Fans,
    pub leaving: Leaving,
}

/// The other direction of a vertex's segment.
pub fn other_way(v: u32) -> u32
    ensures { result ≡ opposite v }
{
    if v % 2 == 0 { v + 1 } else { v - 1 }
}

// How many exits a vertex has.
fn exits_of(roads: &Roads, fans: &Fans, v: u32) -> u32
    requires vertex { v < 2 * length roads.now }
    requires fans { AreFans (vertices roads.now) fans.now.leaving.items fans.now.begins.items fans.now.restricted.items fans.now.nodes.items }
    ensures { result ≡ exits (vertices roads.now) v }
{
    let node = fans.nodes[other_way(v) as usize] as usize;
    let leaving = fans.begins[node + 1] - fans.begins[node];
    if roads.permitted(other_way(v)) {
        leaving - 1
    } else {
        leaving
    }
}

/// How many exits each vertex has.
pub fn exit_counts(alloc: Global, roads: &Roads, fans: &Fans) -> Result<Vec<u32>, AllocError>
    requires { AreFans (vertices roads.now) fans.now.leaving.items fans.now.begins.items fans.now.restricted.items fans.now.nodes.items }
    ensures { IfOk result (λ counts. AreExits (vertices roads.now) counts.items) }
{
    let mut counts = Vec::with_capacity(alloc, 2 * roads.len() as usize)?;
    for v in 0..2 * roads.len() {
        counts.push(exits_of(roads, fans, v))?;
    }
    Ok(counts)
}

/// Whether the vehicle can only turn back at the end of a vertex of so many exits: in a dead end, and at a
/// closed node.
pub fn must_turn_back(roads: &Roads, v: u32, exit_count: u32) -> bool
    requires vertex { v < 2 * length roads.now }
    requires exits { exit_count ≡ exits (vertices roads.now) v }
    ensures { result ≡ must_turn_back (vertices roads.now) v }
{
    exit_count == 0 || roads.closed(v)
}

/// Whether the other direction of a vertex's segment is permitted, and no restriction forbids to turn onto its
/// way; `back` says that the turn goes back onto the segment.
pub fn opens_back(roads: &Roads, restrictions: &Restrictions, v: u32, back: bool) -> bool
    requires { v < 2 * length roads.now }
    ensures { result ≡ opens_back (vertices roads.now) restrictions.now.kept v back }
{
    if roads.permitted(other_way(v)) {
        let way = roads.way(v);
        !restrictions.forbid_turn(roads.head(v), way, way, back)
    } else {
        false
    }
}

/// Whether the vehicle may turn back at the end of a vertex where it can only do so.
pub fn may_turn_back(roads: &Roads, restrictions: &Restrictions, v: u32) -> bool
    requires { v < 2 * length roads.now }
    ensures { result ≡ may_turn_back (vertices roads.now) restrictions.now.kept v }
{
    opens_back(roads, restrictions, v, true)
}

// Whether a vertex is not the other direction of another's segment.
fn is_other(e: u32, v: u32) -> bool
    ensures { result ≡ not (e == opposite v) }
{
    e != other_way(v)
}

// Adds the turns from a vertex onto others among these.
fn push_row(turns: &mut Vec<(u32, u32)>, row: &[u32], v: u32) -> Result<(), AllocError>
    ensures { OnOk result (turns.new.items ≡ turns.old.items ++ turns_onto v row.now) }
{
    for e in row {
        if is_other(*e, v) {
            turns.push((v, *e))?;
        }
    }
    Ok(())
}

// Adds the turns from a vertex onto others among those between two places.
fn push_part(
    turns: &mut Vec<(u32, u32)>,
    leaving: &[u32],
    first: usize,
    end: usize,
    v: u32,
) -> Result<(), AllocError>
    requires ordered { first ≤ end }
    requires within { end ≤ length leaving.now }
    ensures { OnOk result (turns.new.items ≡ turns.old.items ++ turns_onto v (take (end - first) (drop first leaving.now))) }
{
    push_row(turns, &leaving[first..end], v)
}

// Adds the turns from a vertex that ends at this node, of this way, onto others, where restrictions apply.
// What is open there from the way is found once.
fn push_open(
    turns: &mut Vec<(u32, u32)>,
    rows: &mut HashMap<(i64, i64), Vec<u32>>,
    alloc: Global,
    leaving: &Leaving,
    restrictions: &Restrictions,
    end: (i64, i64),
    v: u32,
) -> Result<(), AllocError>
    requires groups { AreGroups leaving.now.runs leaving.now.groups }
    requires rows { AreOpenRows restrictions.now.kept leaving.now.runs rows.old }
    ensures turns { OnOk result (turns.new.items ≡ turns.old.items ++ turns_onto v (open_exits restrictions.now.kept end.0 end.1 (leaving_at leaving.now.runs end.0))) }
    ensures rows { OnOk result (AreOpenRows restrictions.now.kept leaving.now.runs rows.new) }
{
    if let Some(row) = rows.get(&end) {
        return push_row(turns, row, v);
    }
    let row = leaving.open(alloc, restrictions, end.0, end.1)?;
    push_row(turns, &row, v)?;
    rows.insert(end, row)?;
    Ok(())
}

// Adds the turns that go on from a vertex.
fn push_on(
    turns: &mut Vec<(u32, u32)>,
    rows: &mut HashMap<(i64, i64), Vec<u32>>,
    alloc: Global,
    roads: &Roads,
    exits: &Exits,
    restrictions: &Restrictions,
    v: u32,
) -> Result<(), AllocError>
    requires vertex { v < 2 * length roads.now }
    requires fans { AreFans (vertices roads.now) exits.now.fans.leaving.items exits.now.fans.begins.items exits.now.fans.restricted.items exits.now.fans.nodes.items }
    requires restricted { AreRestricted (vertices roads.now) restrictions.now.kept exits.now.fans.restricted.items exits.now.fans.nodes.items }
    requires leaving { AreLeaving (vertices roads.now) restrictions.now.kept exits.now.leaving.runs exits.now.leaving.groups }
    requires rows { AreOpenRows restrictions.now.kept exits.now.leaving.runs rows.old }
    ensures turns { OnOk result (turns.new.items ≡ turns.old.items ++ turns_on (vertices roads.now) restrictions.now.kept v) }
    ensures rows { OnOk result (AreOpenRows restrictions.now.kept exits.now.leaving.runs rows.new) }
{
    let fans = &exits.fans;
    let node = fans.nodes[other_way(v) as usize] as usize;
    if fans.restricted[node] {
        let end = (roads.head(v), roads.way(v));
        return push_open(turns, rows, alloc, &exits.leaving, restrictions, end, v);
    }
    let first = fans.begins[node] as usize;
    let end = fans.begins[node + 1] as usize;
    push_part(turns, &fans.leaving, first, end, v)
}

// Adds the turns from a vertex.
fn push_turns(
    turns: &mut Vec<(u32, u32)>,
    rows: &mut HashMap<(i64, i64), Vec<u32>>,
    alloc: Global,
    roads: &Roads,
    exits: &Exits,
    restrictions: &Restrictions,
    v: u32,
) -> Result<(), AllocError>
    requires vertex { v < 2 * length roads.now }
    requires fans { AreFans (vertices roads.now) exits.now.fans.leaving.items exits.now.fans.begins.items exits.now.fans.restricted.items exits.now.fans.nodes.items }
    requires restricted { AreRestricted (vertices roads.now) restrictions.now.kept exits.now.fans.restricted.items exits.now.fans.nodes.items }
    requires counts { AreExits (vertices roads.now) exits.now.counts.items }
    requires leaving { AreLeaving (vertices roads.now) restrictions.now.kept exits.now.leaving.runs exits.now.leaving.groups }
    requires rows { AreOpenRows restrictions.now.kept exits.now.leaving.runs rows.old }
    ensures turns { OnOk result (turns.new.items ≡ turns.old.items ++ turns_at (vertices roads.now) restrictions.now.kept v) }
    ensures rows { OnOk result (AreOpenRows restrictions.now.kept exits.now.leaving.runs rows.new) }
{
    if !roads.permitted(v) {
        return Ok(());
    }
    if !must_turn_back(roads, v, exits.counts[v as usize]) {
        return push_on(turns, rows, alloc, roads, exits, restrictions, v);
    }
    if may_turn_back(roads, restrictions, v) {
        turns.push((v, other_way(v)))?;
    }
    Ok(())
}

/// All turns, by the vertex that they leave and then by the one that they enter. They are so many, for which
/// room is taken at once. Looking for them takes time by the segments, the members of the restrictions and
/// the turns that are found.
pub fn turn_list(
    alloc: Global,
    roads: &Roads,
    exits: &Exits,
    restrictions: &Restrictions,
    count: usize,
) -> Result<Vec<(u32, u32)>, AllocError>
    requires fans { AreFans (vertices roads.now) exits.now.fans.leaving.items exits.now.fans.begins.items exits.now.fans.restricted.items exits.now.fans.nodes.items }
    requires restricted { AreRestricted (vertices roads.now) restrictions.now.kept exits.now.fans.restricted.items exits.now.fans.nodes.items }
    requires counts { AreExits (vertices roads.now) exits.now.counts.items }
    requires leaving { AreLeaving (vertices roads.now) restrictions.now.kept exits.now.leaving.runs exits.now.leaving.groups }
    requires as_many { count ≡ length (turns (vertices roads.now) restrictions.now.kept) }
    ensures { IfOk result (λ list. list.items ≡ turns (vertices roads.now) restrictions.now.kept) }
{
    let mut list = Vec::with_capacity(alloc, count)?;
    let mut rows = HashMap::new(alloc);
    for v in 0..2 * roads.len() {
        push_turns(&mut list, &mut rows, alloc, roads, exits, restrictions, v)?;
    }
    Ok(list)
}

impl Exits {
    /// What leaves the nodes of these roads, where these restrictions apply.
    pub fn of(
        alloc: Global,
        roads: &Roads,
        departures: &Departures,
        restrictions: &Restrictions,
    ) -> Result<Exits, AllocError>
        requires { AreDepartures (vertices roads.now) departures.now.order.items }
        ensures fans { IfOk result (λ e. AreFans (vertices roads.now) e.fans.leaving.items e.fans.begins.items e.fans.restricted.items e.fans.nodes.items) }
        ensures restricted { IfOk result (λ e. AreRestricted (vertices roads.now) restrictions.now.kept e.fans.restricted.items e.fans.nodes.items) }
        ensures counts { IfOk result (λ e. AreExits (vertices roads.now) e.counts.items) }
        ensures leaving { IfOk result (λ e. AreLeaving (vertices roads.now) restrictions.now.kept e.leaving.runs e.leaving.groups) }
    {
        let fans = Fans::of(alloc, roads, departures, restrictions)?;
        let counts = exit_counts(alloc, roads, &fans)?;
        let leaving = Leaving::of(alloc, roads, &fans)?;
        Ok(Exits {
            counts,
            fans,
            leaving,
        })
    }
}
