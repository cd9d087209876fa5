//! The turn restrictions that apply in a network, by the nodes at which they forbid turns.

ghost use Rattle.std.specs.Prelude.{◌≡◌, ℤ, false, not, All, ◌&&◌, ◌+◌, ◌*◌, ◌^◌, ◌<◌, ◌≤◌, ◌↔◌, IfOk, IsTrue, length, map, count_by};
ghost use Rattle.std.specs.HashSet.{contains};
ghost use Rattle.std.specs.List.{items_where_true, list_all};
ghost use Rattle.std.specs.Ordering.{int_eq};
ghost use Rattle.turn_rules.specs.Rules.{HasVias, forbids};
ghost use Rattle.road_turns.specs.Restrictions.{applies, applied_rules, is_forbidden_at};
ghost use Rattle.road_turns.specs.RestrictionParts.{AreMet, has_via, pair_eq};
ghost use Rattle.road_turns.specs.Decisions.{MatchOnto};

use crate::decisions::{Decisions, Onto};
use road_segments::Roads;
use std::alloc::{AllocError, Global};
use std::collections::HashSet;
use std::marker::Model;
use turn_rules::{Rules, ViaRestriction};

/// The turn restrictions that apply in a network: an entry or two for each of their ways beside the
/// restrictions of the map. Contracts see the rules that apply, and how many others are ignored.
pub struct Restrictions {
    rules: Rules,
    applies: Vec<bool>,
    nodes: HashSet<i64>,
    decisions: Decisions,
    ignored: u64,
}

impl Drop for Restrictions {
    fn drop(self) {
        let Restrictions {
            rules: _rules,
            applies: _applies,
            nodes: _nodes,
            decisions: _decisions,
            ignored: _ignored,
        } = self;
    }
}

impl Model for Restrictions {
    ghost use Rattle.turn_rules.specs.Rules.{RulesView};

    ghost Value = { RulesView };

    ghost use Rattle.std.specs.List.{items_where_true};
    ghost use Rattle.road_turns.specs.Decisions.{AreRestrictionParts};

    ghost view = { λ r. record { kept = items_where_true r.applies.items r.rules.kept; along = r.rules.along; ignored = r.ignored } };

    ghost invariant = { λ r. AreRestrictionParts r.rules.kept r.applies.items r.nodes r.decisions.forbidden r.decisions.no_u_turn r.decisions.only };
}

// The nodes at which the rules forbid turns.
fn via_nodes(alloc: Global, rules: &Rules) -> Result<HashSet<i64>, AllocError>
    ensures { IfOk result (λ nodes. (node : ℤ) → contains int_eq nodes node ≡ has_via rules.now.kept node) }
{
    let mut nodes = HashSet::new(alloc);
    for i in (0..rules.count()).rev() {
        nodes.insert(rules.via(i))?;
    }
    Ok(nodes)
}

// Which of these nodes meet which ways, each with the way.
fn ways_met(
    alloc: Global,
    roads: &Roads,
    nodes: &HashSet<i64>,
) -> Result<HashSet<(i64, i64)>, AllocError>
    ensures { IfOk result (λ met. AreMet nodes.now roads.now met) }
{
    let mut met = HashSet::new(alloc);
    for v in (0..2 * roads.len()).rev() {
        let node = roads.tail(v);
        if nodes.contains(&node) {
            met.insert((node, roads.way(v)))?;
        }
    }
    Ok(met)
}

// Whether each of the ways meets the node.
fn all_meet(met: &HashSet<(i64, i64)>, node: i64, ways: &[i64]) -> bool
    ensures { result ≡ list_all (λ way. contains pair_eq met.now (node, way)) ways.now }
{
    for way in ways {
        if !met.contains(&(node, *way)) {
            return false;
        }
    }
    true
}

// Whether each rule applies.
fn flags_of(alloc: Global, rules: &Rules, roads: &Roads) -> Result<Vec<bool>, AllocError>
    ensures { IfOk result (λ flags. flags.items ≡ map (applies roads.now) rules.now.kept) }
{
    let mut flags = Vec::with_capacity(alloc, rules.count() as usize)?;
    if rules.count() == 0 {
        return Ok(flags);
    }
    let nodes = via_nodes(alloc, rules)?;
    let met = ways_met(alloc, roads, &nodes)?;
    for i in 0..rules.count() {
        flags.push(all_meet(&met, rules.via(i), rules.ways(i)))?;
    }
    Ok(flags)
}

// How many of these are false.
fn count_unmet(flags: &[bool]) -> u64
    ensures value { result ≡ count_by (λ flag. not flag) flags.now }
    ensures bound { result ≤ length flags.now }
{
    let mut count = 0;
    for flag in flags {
        if !*flag {
            count += 1;
        }
    }
    count
}

// The nodes at which the restrictions that apply forbid turns.
fn nodes_of(alloc: Global, rules: &Rules, applies: &[bool]) -> Result<HashSet<i64>, AllocError>
    requires { length applies.now ≡ length rules.now.kept }
    ensures { IfOk result (λ nodes. (node : ℤ) → contains int_eq nodes node ≡ has_via (items_where_true applies.now rules.now.kept) node) }
{
    let mut nodes = HashSet::new(alloc);
    for i in (0..rules.count()).rev() {
        if applies[i as usize] {
            nodes.insert(rules.via(i))?;
        }
    }
    Ok(nodes)
}

impl Restrictions {
    /// Those of the rules that apply in a network of these roads.
    pub fn of(alloc: Global, rules: Rules, roads: &Roads) -> Result<Restrictions, AllocError>
        requires { length rules.kept + rules.ignored < 2 ^ 64 }
        ensures { IfOk result (λ r. r ≡ applied_rules roads.now rules) }
    {
        let applies = flags_of(alloc, &rules, roads)?;
        let nodes = nodes_of(alloc, &rules, &applies)?;
        let decisions = Decisions::of(alloc, &rules, &applies)?;
        let ignored = rules.ignored() + count_unmet(&applies);
        Ok(Restrictions {
            rules,
            applies,
            nodes,
            decisions,
            ignored,
        })
    }

    /// The restrictions over via ways, whether they forbid something in the network or not. Each has one to four via
    /// ways.
    pub fn along(&self) -> &[ViaRestriction]
        ensures value { result.now ≡ self.now.along }
        ensures vias { All HasVias result.now }
    {
        self.rules.along()
    }

    /// How many restrictions over nodes apply.
    pub fn applied(&self) -> u64
        ensures { result ≡ length self.now.kept }
    {
        self.applies.len() as u64 - count_unmet(&self.applies)
    }

    /// How many restrictions are ignored.
    pub fn ignored(&self) -> u64
        ensures { result ≡ self.now.ignored }
    {
        self.ignored
    }

    /// Whether a restriction applies at a node.
    pub fn any_at(&self, node: i64) -> bool
        ensures { result ≡ has_via self.now.kept node }
    {
        self.nodes.contains(&node)
    }

    /// Whether a restriction forbids the turn at a node from a way onto a way; `back` says that the turn
    /// goes back onto its own segment.
    pub fn forbid_turn(&self, node: i64, from: i64, to: i64, back: bool) -> bool
        ensures { result ≡ is_forbidden_at self.now.kept node from to back }
    {
        self.decisions.forbid(node, from, to, back)
    }

    /// Onto which ways a restriction allows to turn at a node from a way.
    pub fn onto(&self, node: i64, from: i64) -> Onto
        ensures { MatchOnto (λ to. is_forbidden_at self.now.kept node from to false) result }
    {
        self.decisions.onto(node, from)
    }
}
