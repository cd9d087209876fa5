//! One turn restriction over a node.

ghost use Rattle.std.specs.Prelude.{◌≡◌, ◌++◌, IfOk, Some};
ghost use Rattle.turn_rules.specs.Rules.{forbids, rule_of, rule_under, rule_with};

use crate::members::{one_as, ways_as};
use crate::senses::{Sense, sense_of};
use road_base::{Ids, Kind, Member, Relation};
use std::alloc::{AllocError, Global};
use std::marker::Model;

/// A turn restriction over a node: 48 bytes, and 8 for each way. Contracts see the rule.
#[derive(Debug)]
pub struct Restriction {
    via: i64,
    /// the `from` ways, and behind them the `to` ways
    ways: Ids,
    /// how many of the ways are `from` ways
    entries: usize,
    sense: Sense,
}

impl Drop for Restriction {
    fn drop(self) {
        let Restriction {
            via: _via,
            ways: _ways,
            entries: _entries,
            sense: _sense,
        } = self;
    }
}

impl Model for Restriction {
    ghost use Rattle.std.specs.Prelude.{◌≤◌, length, take, drop};
    ghost use Rattle.turn_rules.specs.Rules.{Rule};

    ghost Value = { Rule };

    ghost view = { λ r. record { via = r.via; from = take r.entries r.ways; to = drop r.entries r.ways; sense = r.sense } };

    ghost invariant = { λ r. r.entries ≤ length r.ways };
}

// The restriction over a node of these members under a value of `restriction`.
fn restriction_under(
    alloc: Global,
    members: &[Member],
    value: &str,
) -> Result<Option<Restriction>, AllocError>
    ensures { IfOk result (λ restriction. restriction ≡ rule_under members.now value.now) }
{
    let Some(via) = one_as(members, "via", Kind::Node) else {
        return Ok(None);
    };
    let from = ways_as(alloc, members, "from", value == "no_entry")?;
    let to = ways_as(alloc, members, "to", value == "no_exit")?;
    restriction_with(via, sense_of(value), from, to)
}

// The restriction of these parts, or None where one is missing.
fn restriction_with(
    via: i64,
    sense: Option<Sense>,
    from: Option<Ids>,
    to: Option<Ids>,
) -> Result<Option<Restriction>, AllocError>
    ensures { IfOk result (λ restriction. restriction ≡ rule_with (Some via) sense from to) }
{
    match (sense, from, to) {
        (Some(sense), Some(from), Some(to)) => {
            Ok(Some(Restriction::between(sense, via, from, to)?))
        }
        _ => Ok(None),
    }
}

impl Restriction {
    /// The restriction over a node that a relation is, or None where its value or its members are those of none.
    pub fn of(alloc: Global, relation: &Relation) -> Result<Option<Restriction>, AllocError>
        ensures { IfOk result (λ restriction. restriction ≡ rule_of relation.now) }
    {
        match relation.tags.get("restriction") {
            Some(value) => restriction_under(alloc, relation.members.as_slice(), value),
            None => Ok(None),
        }
    }

    // The restriction from ways over a node to ways.
    fn between(sense: Sense, via: i64, from: Ids, to: Ids) -> Result<Restriction, AllocError>
        ensures { IfOk result (λ r. r ≡ record { via = via; from = from; to = to; sense = sense }) }
    {
        let mut ways = from.into_vec();
        let entries = ways.len();
        ways.extend_from_slice(to.as_slice())?;
        Ok(Restriction {
            via,
            ways: Ids::of(ways),
            entries,
            sense,
        })
    }

    /// The id of its `via` node.
    pub fn via(&self) -> i64
        ensures { result ≡ self.now.via }
    {
        self.via
    }

    /// The ids of its `from` ways, and behind them those of its `to` ways.
    pub fn ways(&self) -> &[i64]
        ensures { result.now ≡ self.now.from ++ self.now.to }
    {
        self.ways.as_slice()
    }

    /// The ids of its `from` ways.
    pub fn from(&self) -> &[i64]
        ensures { result.now ≡ self.now.from }
    {
        &self.ways.as_slice()[..self.entries]
    }

    /// The ids of its `to` ways.
    pub fn to(&self) -> &[i64]
        ensures { result.now ≡ self.now.to }
    {
        &self.ways.as_slice()[self.entries..]
    }

    /// What it does with the turns from its `from` ways.
    pub fn sense(&self) -> Sense
        ensures { result ≡ self.now.sense }
    {
        self.sense
    }

    /// Whether it forbids the turn at its `via` node from a way to a way; `back` says that the turn goes
    /// back onto its own segment.
    pub fn forbids(&self, from: i64, to: i64, back: bool) -> bool
        ensures { result ≡ forbids self.now from to back }
    {
        let (entries, exits) = self.ways.as_slice().split_at(self.entries);
        let onto = exits.contains(&to);
        entries.contains(&from)
            && match self.sense {
                Sense::No => onto,
                Sense::NoUTurn => onto && (back || from != to),
                Sense::Only => !onto,
            }
    }
}
