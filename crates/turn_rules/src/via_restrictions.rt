//! One turn restriction over via ways.

ghost use Rattle.std.specs.Prelude.{◌≡◌, IfOk, IfSome, Some};
ghost use Rattle.turn_rules.specs.Rules.{AreFew, HasVias, via_rule_of, via_rule_under, via_rule_with};

use crate::members::{one_as, vias_of};
use crate::senses::only_of;
use road_base::{Ids, Kind, Member, Relation};
use std::alloc::{AllocError, Global};
use std::marker::Model;

/// A turn restriction over via ways: 48 bytes, and 8 for each via way. Contracts see the rule.
#[derive(Debug)]
pub struct ViaRestriction {
    from: i64,
    via: Ids,
    to: i64,
    only: bool,
}

impl Drop for ViaRestriction {
    fn drop(self) {
        let ViaRestriction {
            from: _from,
            via: _via,
            to: _to,
            only: _only,
        } = self;
    }
}

impl Model for ViaRestriction {
    ghost use Rattle.turn_rules.specs.Rules.{AreFew, ViaRule};

    ghost Value = { ViaRule };

    ghost view = { λ r. record { from = r.from; via = r.via; to = r.to; only = r.only } };

    ghost invariant = { λ r. AreFew r.via };
}

// The restriction over via ways of these members under a value of `restriction`.
fn restriction_under(
    alloc: Global,
    members: &[Member],
    value: &str,
) -> Result<Option<ViaRestriction>, AllocError>
    ensures value { IfOk result (λ restriction. restriction ≡ via_rule_under members.now value.now) }
    ensures vias { IfOk result (λ restriction. IfSome restriction HasVias) }
{
    let Some(only) = only_of(value) else {
        return Ok(None);
    };
    let from = one_as(members, "from", Kind::Way);
    let to = one_as(members, "to", Kind::Way);
    let via = vias_of(alloc, members)?;
    Ok(restriction_with(only, from, via, to))
}

// The restriction of these parts, or None where one is missing.
fn restriction_with(
    only: bool,
    from: Option<i64>,
    via: Option<Ids>,
    to: Option<i64>,
) -> Option<ViaRestriction>
    requires { IfSome via AreFew }
    ensures value { result ≡ via_rule_with (Some only) from via to }
    ensures vias { IfSome result HasVias }
{
    match (from, via, to) {
        (Some(from), Some(via), Some(to)) => Some(ViaRestriction {
            from,
            via,
            to,
            only,
        }),
        _ => None,
    }
}

impl ViaRestriction {
    /// The restriction over via ways that a relation is, or None where its value or its members are those of none.
    pub fn of(alloc: Global, relation: &Relation) -> Result<Option<ViaRestriction>, AllocError>
        ensures value { IfOk result (λ restriction. restriction ≡ via_rule_of relation.now) }
        ensures vias { IfOk result (λ restriction. IfSome restriction HasVias) }
    {
        match relation.tags.get("restriction") {
            Some(value) => restriction_under(alloc, relation.members.as_slice(), value),
            None => Ok(None),
        }
    }

    /// The id of its `from` way.
    pub fn from(&self) -> i64
        ensures { result ≡ self.now.from }
    {
        self.from
    }

    /// The ids of its `via` ways, in the order in which they are gone along.
    pub fn via(&self) -> &[i64]
        ensures value { result.now ≡ self.now.via }
        ensures vias { HasVias self.now }
    {
        self.via.as_slice()
    }

    /// The id of its `to` way.
    pub fn to(&self) -> i64
        ensures { result ≡ self.now.to }
    {
        self.to
    }

    /// Whether it forbids all other ways than its `to` way, and not that one.
    pub fn only(&self) -> bool
        ensures { result ≡ self.now.only }
    {
        self.only
    }
}
