//! The turn restrictions that a vehicle has to obey.

ghost use Rattle.std.specs.Prelude.{◌≡◌, ◌<◌, ◌++◌, All, Some, length, option_map};
ghost use Rattle.std.specs.List.{slice_get};
ghost use Rattle.turn_rules.specs.Rules.{HasVias, forbids};

use crate::restrictions::Restriction;
use crate::senses::Sense;
use crate::via_restrictions::ViaRestriction;
use std::marker::Model;

/// The turn restrictions of a map that one vehicle has to obey, those over nodes and those over via ways, and how
/// many others are ignored. Contracts see the rules and that number.
#[derive(Debug)]
pub struct Rules {
    kept: Vec<Restriction>,
    along: Vec<ViaRestriction>,
    ignored: u64,
}

impl Drop for Rules {
    fn drop(self) {
        let Rules {
            kept: _kept,
            along: _along,
            ignored: _ignored,
        } = self;
    }
}

impl Model for Rules {
    ghost use Rattle.std.specs.Prelude.{All};
    ghost use Rattle.turn_rules.specs.Rules.{HasVias, RulesView};

    ghost Value = { RulesView };

    ghost view = { λ r. record { kept = r.kept.items; along = r.along.items; ignored = r.ignored } };

    ghost invariant = { λ r. All HasVias r.along.items };
}

impl Rules {
    // The list of these.
    pub(crate) fn of(kept: Vec<Restriction>, along: Vec<ViaRestriction>, ignored: u64) -> Rules
        requires { All HasVias along.items }
        ensures { result ≡ record { kept = kept.items; along = along.items; ignored = ignored } }
    {
        Rules {
            kept,
            along,
            ignored,
        }
    }

    /// How many restrictions over nodes there are. They are numbered from 0 in the order of the objects.
    pub fn count(&self) -> u64
        ensures { result ≡ length self.now.kept }
    {
        self.kept.len() as u64
    }

    /// The id of the node at which restriction `i` forbids turns.
    pub fn via(&self, i: u64) -> i64
        requires { i < length self.now.kept }
        ensures { option_map (λ rule. rule.via) (slice_get self.now.kept i) ≡ Some result }
    {
        self.kept[i as usize].via()
    }

    /// The ids of the ways of restriction `i` in the role `from`, and behind them those in the role `to`.
    pub fn ways(&self, i: u64) -> &[i64]
        requires { i < length self.now.kept }
        ensures { option_map (λ rule. rule.from ++ rule.to) (slice_get self.now.kept i) ≡ Some result.now }
    {
        self.kept[i as usize].ways()
    }

    /// The ids of the ways of restriction `i` in the role `from`.
    pub fn from(&self, i: u64) -> &[i64]
        requires { i < length self.now.kept }
        ensures { option_map (λ rule. rule.from) (slice_get self.now.kept i) ≡ Some result.now }
    {
        self.kept[i as usize].from()
    }

    /// The ids of the ways of restriction `i` in the role `to`.
    pub fn to(&self, i: u64) -> &[i64]
        requires { i < length self.now.kept }
        ensures { option_map (λ rule. rule.to) (slice_get self.now.kept i) ≡ Some result.now }
    {
        self.kept[i as usize].to()
    }

    /// What restriction `i` does with the turns from its `from` ways.
    pub fn sense(&self, i: u64) -> Sense
        requires { i < length self.now.kept }
        ensures { option_map (λ rule. rule.sense) (slice_get self.now.kept i) ≡ Some result }
    {
        self.kept[i as usize].sense()
    }

    /// Whether restriction `i` forbids the turn at its node from a way to a way; `back` says that the turn
    /// goes back onto its own segment. A `no_` restriction forbids the turns from its `from` ways onto its
    /// `to` ways, but `no_u_turn` from a way onto itself only those that go back; an `only_` restriction
    /// forbids the turns from its `from` way onto all other ways than its `to` way.
    pub fn forbids(&self, i: u64, from: i64, to: i64, back: bool) -> bool
        requires { i < length self.now.kept }
        ensures { option_map (λ rule. forbids rule from to back) (slice_get self.now.kept i) ≡ Some result }
    {
        self.kept[i as usize].forbids(from, to, back)
    }

    /// The restrictions over via ways, in the order of the objects. Each has one to four via ways.
    pub fn along(&self) -> &[ViaRestriction]
        ensures value { result.now ≡ self.now.along }
        ensures vias { All HasVias result.now }
    {
        &self.along
    }

    /// How many restrictions are ignored, since their value or their members are faulty.
    pub fn ignored(&self) -> u64
        ensures { result ≡ self.now.ignored }
    {
        self.ignored
    }
}
