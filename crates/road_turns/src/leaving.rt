//! The permitted vertices that leave the nodes where restrictions apply, by their ways: what is decided for
//! a way then needs no look at each of its vertices.

ghost use Rattle.std.specs.Prelude.{◌≡◌, ℕ, ℤ, None, true, false, not, if◌then◌else◌, ◌*◌, ◌<◌, ◌++◌, [], ◌∷◌, IfOk, List, OnOk, length, filter, map};
ghost use Rattle.std.specs.HashMap.{get};
ghost use Rattle.std.specs.Ordering.{int_eq};
ghost use Rattle.road_turns.specs.Fans.{AreFans, AreRestricted};
ghost use Rattle.road_turns.specs.Leaving.{AreGroups, AreLeaving, leaving_at, exits_in, group_at, open_exits};
ghost use Rattle.road_turns.specs.RestrictionParts.{pair_eq};
ghost use Rattle.road_turns.specs.Restrictions.{is_forbidden_at};
ghost use Rattle.road_segments.specs.Vertex.{vertices};
ghost use Rattle.turn_rules.specs.Rules.{Rule};

use crate::decisions::Onto;
use crate::fans::Fans;
use crate::restrictions::Restrictions;
use road_segments::Roads;
use std::alloc::{AllocError, Global};
use std::collections::HashMap;

/// Vertices of one way that leave a node one after the other.
pub struct Run {
    pub way: i64,
    pub vertices: Vec<u32>,
}

impl Drop for Run {
    fn drop(self) {
        let Run {
            way: _way,
            vertices: _vertices,
        } = self;
    }
}

/// The permitted vertices that leave the nodes where restrictions apply, in ascending order.
pub struct Leaving {
    /// by node, all of them
    pub runs: HashMap<i64, Vec<Run>>,
    /// by node and way, those of the way
    pub groups: HashMap<(i64, i64), Vec<u32>>,
}

impl Drop for Leaving {
    fn drop(self) {
        let Leaving {
            runs: _runs,
            groups: _groups,
        } = self;
    }
}

// The last run if it is of this way, taken off, or else a new one.
fn last_run(alloc: Global, runs: &mut Vec<Run>, way: i64) -> Result<Run, AllocError>
    ensures way { IfOk result (λ run. run.way ≡ way) }
    ensures rest { IfOk result (λ run. exits_in runs.old.items ≡ exits_in runs.new.items ++ map (λ v. (v, way)) run.vertices.items) }
{
    match runs.pop() {
        Some(run) if run.way == way => Ok(run),
        Some(run) => {
            runs.push(run)?;
            Ok(Run {
                way,
                vertices: Vec::new(alloc),
            })
        }
        None => Ok(Run {
            way,
            vertices: Vec::new(alloc),
        }),
    }
}

// Adds a vertex of a way to the runs of a node.
fn add_exit(alloc: Global, runs: &mut Vec<Run>, way: i64, v: u32) -> Result<(), AllocError>
    ensures { OnOk result (exits_in runs.new.items ≡ exits_in runs.old.items ++ (v, way) ∷ []) }
{
    let mut run = last_run(alloc, runs, way)?;
    run.vertices.push(v)?;
    runs.push(run)?;
    Ok(())
}

// Takes the runs of a node off.
fn take_runs(alloc: Global, all: &mut HashMap<i64, Vec<Run>>, node: i64) -> Vec<Run>
    ensures exits { exits_in result.items ≡ leaving_at all.old node }
    ensures rest { (n : ℤ) → get int_eq all.new n ≡ (if int_eq node n then None else get int_eq all.old n) }
{
    match all.remove(&node) {
        Some(runs) => runs,
        None => Vec::new(alloc),
    }
}

// Adds a vertex of a way to those that leave a node.
fn add_to_runs(
    alloc: Global,
    all: &mut HashMap<i64, Vec<Run>>,
    node: i64,
    way: i64,
    v: u32,
) -> Result<(), AllocError>
    ensures { OnOk result ((n : ℤ) → leaving_at all.new n ≡ (if int_eq node n then leaving_at all.old n ++ (v, way) ∷ [] else leaving_at all.old n)) }
{
    let mut runs = take_runs(alloc, all, node);
    add_exit(alloc, &mut runs, way, v)?;
    all.insert(node, runs)?;
    Ok(())
}

// Takes the vertices of a way that leave a node off.
fn take_group(
    alloc: Global,
    groups: &mut HashMap<(i64, i64), Vec<u32>>,
    node: i64,
    way: i64,
) -> Vec<u32>
    ensures items { result.items ≡ group_at groups.old (node, way) }
    ensures rest { (q : ℤ × ℤ) → get pair_eq groups.new q ≡ (if pair_eq (node, way) q then None else get pair_eq groups.old q) }
{
    match groups.remove(&(node, way)) {
        Some(group) => group,
        None => Vec::new(alloc),
    }
}

// Adds a vertex of a way to those of this way that leave a node.
fn add_to_groups(
    alloc: Global,
    groups: &mut HashMap<(i64, i64), Vec<u32>>,
    node: i64,
    way: i64,
    v: u32,
) -> Result<(), AllocError>
    ensures { OnOk result ((q : ℤ × ℤ) → group_at groups.new q ≡ (if pair_eq (node, way) q then group_at groups.old q ++ v ∷ [] else group_at groups.old q)) }
{
    let mut group = take_group(alloc, groups, node, way);
    group.push(v)?;
    groups.insert((node, way), group)?;
    Ok(())
}

// Adds a vertex of a way to all that leave a node and to those of this way.
fn add(alloc: Global, leaving: &mut Leaving, node: i64, way: i64, v: u32) -> Result<(), AllocError>
    requires { AreGroups leaving.old.runs leaving.old.groups }
    ensures groups { OnOk result (AreGroups leaving.new.runs leaving.new.groups) }
    ensures exits { OnOk result ((n : ℤ) → leaving_at leaving.new.runs n ≡ (if int_eq node n then leaving_at leaving.old.runs n ++ (v, way) ∷ [] else leaving_at leaving.old.runs n)) }
{
    add_to_runs(alloc, &mut leaving.runs, node, way, v)?;
    add_to_groups(alloc, &mut leaving.groups, node, way, v)?;
    Ok(())
}

impl Leaving {
    /// Those that leave the nodes that are marked as those where a restriction applies.
    pub fn of(alloc: Global, roads: &Roads, fans: &Fans) -> Result<Leaving, AllocError>
        requires { AreFans (vertices roads.now) fans.now.leaving.items fans.now.begins.items fans.now.restricted.items fans.now.nodes.items }
        ensures { IfOk result (λ l. (rules : List Rule) → AreRestricted (vertices roads.now) rules fans.now.restricted.items fans.now.nodes.items → AreLeaving (vertices roads.now) rules l.runs l.groups) }
    {
        let mut leaving = Leaving {
            runs: HashMap::new(alloc),
            groups: HashMap::new(alloc),
        };
        for v in 0..2 * roads.len() {
            let node = fans.nodes[v as usize];
            if fans.restricted[node as usize] && roads.permitted(v) {
                add(alloc, &mut leaving, roads.tail(v), roads.way(v), v)?;
            }
        }
        Ok(leaving)
    }

    // Those of one way.
    fn of_way(&self, node: i64, way: i64) -> &[u32]
        ensures { result.now ≡ group_at self.now.groups (node, way) }
    {
        match self.groups.get(&(node, way)) {
            Some(group) => group,
            None => &[],
        }
    }

    // All that leave a node.
    fn of_all(&self, node: i64) -> &[Run]
        ensures { exits_in result.now ≡ leaving_at self.now.runs node }
    {
        match self.runs.get(&node) {
            Some(runs) => runs,
            None => &[],
        }
    }

    // Those of a way, unless a restriction forbids to turn onto it from another.
    fn open_of_way(
        &self,
        alloc: Global,
        restrictions: &Restrictions,
        node: i64,
        from: i64,
        way: i64,
    ) -> Result<Vec<u32>, AllocError>
        requires groups { AreGroups self.now.runs self.now.groups }
        requires only { (to : ℤ) → int_eq way to ≡ false → is_forbidden_at restrictions.now.kept node from to false ≡ true }
        ensures { IfOk result (λ row. row.items ≡ open_exits restrictions.now.kept node from (leaving_at self.now.runs node)) }
    {
        if restrictions.forbid_turn(node, from, way, false) {
            Ok(Vec::new(alloc))
        } else {
            Vec::from_slice(alloc, self.of_way(node, way))
        }
    }

    // Those onto which no restriction forbids to turn from a way, of all that leave the node.
    fn open_of_all(
        &self,
        alloc: Global,
        restrictions: &Restrictions,
        node: i64,
        from: i64,
    ) -> Result<Vec<u32>, AllocError>
        ensures { IfOk result (λ row. row.items ≡ open_exits restrictions.now.kept node from (leaving_at self.now.runs node)) }
    {
        let mut row = Vec::new(alloc);
        for run in self.of_all(node) {
            if !restrictions.forbid_turn(node, from, run.way, false) {
                row.extend_from_slice(&run.vertices)?;
            }
        }
        Ok(row)
    }

    /// Those onto which no restriction forbids to turn from a way, but back onto the same segment.
    pub fn open(
        &self,
        alloc: Global,
        restrictions: &Restrictions,
        node: i64,
        from: i64,
    ) -> Result<Vec<u32>, AllocError>
        requires { AreGroups self.now.runs self.now.groups }
        ensures { IfOk result (λ row. row.items ≡ open_exits restrictions.now.kept node from (leaving_at self.now.runs node)) }
    {
        match restrictions.onto(node, from) {
            Onto::Any => self.open_of_all(alloc, restrictions, node, from),
            Onto::One(way) => self.open_of_way(alloc, restrictions, node, from, way),
            Onto::Nothing => Ok(Vec::new(alloc)),
        }
    }
}
