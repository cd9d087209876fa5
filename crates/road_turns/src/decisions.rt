//! The turn restrictions at each node, folded by the way from which they forbid turns: what they decide for
//! a turn is looked up, however many they are.

ghost use Rattle.std.specs.Prelude.{◌≡◌, ℤ, Bool, not, ◌&&◌, ◌||◌, ◌<◌, IfOk, OnOk, Some, length, filter, option_map};
ghost use Rattle.std.specs.HashSet.{contains};
ghost use Rattle.std.specs.List.{items_where_true, slice_get};
ghost use Rattle.std.specs.Ordering.{int_eq};
ghost use Rattle.turn_rules.specs.Rules.{forbids_onto, is_among};
ghost use Rattle.road_turns.specs.Decisions.{AreDecisions, MatchOnto, decides, passage_eq, rules_out};
ghost use Rattle.road_turns.specs.RestrictionParts.{pair_eq};

use std::alloc::{AllocError, Global};
use std::collections::{HashMap, HashSet};
use turn_rules::{Rules, Sense};

/// A node, the way from which it is passed, and the way onto which it is passed.
pub type Passage = (i64, i64, i64);

/// What the restrictions at the nodes decide: an entry or two for each of their ways.
pub struct Decisions {
    /// the passages that are forbidden
    pub forbidden: HashSet<Passage>,
    /// those that are, but from a way onto itself only back onto the same segment
    pub no_u_turn: HashSet<Passage>,
    /// by node and way, onto which ways all `only_` restrictions there allow to pass it
    pub only: HashMap<(i64, i64), Vec<i64>>,
}

impl Drop for Decisions {
    fn drop(self) {
        let Decisions {
            forbidden: _forbidden,
            no_u_turn: _no_u_turn,
            only: _only,
        } = self;
    }
}

/// Onto which ways a node may be passed from a way.
#[derive(Clone, Copy)]
pub enum Onto {
    /// none is ruled out without looking at it
    Any,
    /// onto no other one
    One(i64),
    /// onto none
    Nothing,
}

// Adds the passages of a node from a way onto each of these.
fn forbid_onto(
    passages: &mut HashSet<Passage>,
    node: i64,
    from: i64,
    to: &[i64],
) -> Result<(), AllocError>
    ensures { OnOk result ((q : ℤ × ℤ × ℤ) → contains passage_eq passages.new q ≡ (contains passage_eq passages.old q || ((int_eq node q.0 && int_eq from q.1) && is_among to.now q.2))) }
{
    for way in to {
        passages.insert((node, from, *way))?;
    }
    Ok(())
}

// Those of the ways that are among others.
fn common_ways(alloc: Global, ways: &[i64], others: &[i64]) -> Result<Vec<i64>, AllocError>
    ensures { IfOk result (λ common. (way : ℤ) → not (is_among common.items way) ≡ (not (is_among ways.now way) || not (is_among others.now way))) }
{
    let mut common = Vec::new(alloc);
    for way in ways {
        if others.contains(way) {
            common.push(*way)?;
        }
    }
    Ok(common)
}

// Those of these ways onto which a node could be passed from a way so far.
fn allowed_still(
    alloc: Global,
    only: &HashMap<(i64, i64), Vec<i64>>,
    node: i64,
    from: i64,
    to: &[i64],
) -> Result<Vec<i64>, AllocError>
    ensures { IfOk result (λ ways. (way : ℤ) → not (is_among ways.items way) ≡ (rules_out only.now (node, from) way || not (is_among to.now way))) }
{
    match only.get(&(node, from)) {
        Some(ways) => common_ways(alloc, ways, to),
        None => Vec::from_slice(alloc, to),
    }
}

// From now on a node may be passed from a way onto no way but these.
fn allow_only(
    alloc: Global,
    only: &mut HashMap<(i64, i64), Vec<i64>>,
    node: i64,
    from: i64,
    to: &[i64],
) -> Result<(), AllocError>
    ensures { OnOk result ((q : ℤ × ℤ) (way : ℤ) → rules_out only.new q way ≡ (rules_out only.old q way || (pair_eq (node, from) q && not (is_among to.now way)))) }
{
    let ways = allowed_still(alloc, only, node, from, to)?;
    only.insert((node, from), ways)?;
    Ok(())
}

impl Decisions {
    // Adds what a restriction of this sense decides at a node from one way.
    fn add_from(
        &mut self,
        alloc: Global,
        node: i64,
        from: i64,
        sense: Sense,
        to: &[i64],
    ) -> Result<(), AllocError>
        ensures { OnOk result ((n f t : ℤ) (back : Bool) → decides self.new.forbidden self.new.no_u_turn self.new.only n f t back ≡ (decides self.old.forbidden self.old.no_u_turn self.old.only n f t back || ((int_eq node n && int_eq from f) && forbids_onto sense to.now f t back))) }
    {
        match sense {
            Sense::No => forbid_onto(&mut self.forbidden, node, from, to),
            Sense::NoUTurn => forbid_onto(&mut self.no_u_turn, node, from, to),
            Sense::Only => allow_only(alloc, &mut self.only, node, from, to),
        }
    }

    // Adds what a restriction of this sense decides at a node from its `from` ways onto its `to` ways.
    fn add(
        &mut self,
        alloc: Global,
        node: i64,
        sense: Sense,
        from: &[i64],
        to: &[i64],
    ) -> Result<(), AllocError>
        ensures { OnOk result ((n f t : ℤ) (back : Bool) → decides self.new.forbidden self.new.no_u_turn self.new.only n f t back ≡ (decides self.old.forbidden self.old.no_u_turn self.old.only n f t back || (int_eq node n && (is_among from.now f && forbids_onto sense to.now f t back)))) }
    {
        for way in from {
            self.add_from(alloc, node, *way, sense, to)?;
        }
        Ok(())
    }

    /// What those of the restrictions that apply decide.
    pub fn of(alloc: Global, rules: &Rules, applies: &[bool]) -> Result<Decisions, AllocError>
        requires { length applies.now ≡ length rules.now.kept }
        ensures { IfOk result (λ d. AreDecisions (items_where_true applies.now rules.now.kept) d.forbidden d.no_u_turn d.only) }
    {
        let mut decisions = Decisions {
            forbidden: HashSet::new(alloc),
            no_u_turn: HashSet::new(alloc),
            only: HashMap::new(alloc),
        };
        for i in (0..rules.count()).rev() {
            if applies[i as usize] {
                let (from, to) = (rules.from(i), rules.to(i));
                decisions.add(alloc, rules.via(i), rules.sense(i), from, to)?;
            }
        }
        Ok(decisions)
    }

    /// Whether it is forbidden to pass a node from a way onto a way; `back` says that it is back onto the
    /// same segment.
    pub fn forbid(&self, node: i64, from: i64, to: i64, back: bool) -> bool
        ensures { result ≡ decides self.now.forbidden self.now.no_u_turn self.now.only node from to back }
    {
        if self.forbidden.contains(&(node, from, to)) {
            return true;
        }
        self.forbid_u_turn(node, from, to, back) || self.rule_out(node, from, to)
    }

    // Whether it is forbidden, but from a way onto itself only back onto the same segment.
    fn forbid_u_turn(&self, node: i64, from: i64, to: i64, back: bool) -> bool
        ensures { result ≡ (contains passage_eq self.now.no_u_turn (node, from, to) && (back || not (int_eq from to))) }
    {
        self.no_u_turn.contains(&(node, from, to)) && (back || from != to)
    }

    // Whether the ways that a node may be passed onto from a way are none of this one.
    fn rule_out(&self, node: i64, from: i64, to: i64) -> bool
        ensures { result ≡ rules_out self.now.only (node, from) to }
    {
        match self.only.get(&(node, from)) {
            Some(ways) => !ways.contains(&to),
            None => false,
        }
    }

    /// Onto which ways a node may be passed from a way.
    pub fn onto(&self, node: i64, from: i64) -> Onto
        ensures { MatchOnto (λ to. rules_out self.now.only (node, from) to) result }
    {
        match self.only.get(&(node, from)) {
            Some(ways) => onto_some(ways),
            None => Onto::Any,
        }
    }
}

// Onto which ways a node may be passed if onto no other ones than these.
fn onto_some(ways: &[i64]) -> Onto
    ensures { MatchOnto (λ to. not (is_among ways.now to)) result }
{
    match ways {
        [] => Onto::Nothing,
        [way] => Onto::One(*way),
        _ => Onto::Any,
    }
}
