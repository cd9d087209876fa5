//! From the objects of a map to the restrictions that a vehicle has to obey.

ghost use Rattle.std.specs.Prelude.{◌≡◌, ◌+◌, ◌≤◌, ◌&&◌, IfOk, length, not, option_copied};
ghost use Rattle.turn_rules.specs.Rules.{is_excepted, is_restriction, restriction_in, rules_of};

use crate::exceptions::{is_excepted, is_restriction};
use crate::restrictions::Restriction;
use crate::rule_lists::Rules;
use crate::via_restrictions::ViaRestriction;
use road_base::{Object, Relation};
use std::alloc::{AllocError, Global};

// Whether a relation is a restriction that the vehicle has to obey.
fn is_obeyed(relation: &Relation, vehicle: &str) -> bool
    ensures { result ≡ (is_restriction relation.now && not (is_excepted vehicle.now relation.now)) }
{
    is_restriction(relation) && !is_excepted(vehicle, relation)
}

// The restriction that an object is, if the vehicle has to obey it.
fn restriction_in<'a>(object: &'a Object, vehicle: &str) -> Option<&'a Relation>
    ensures { option_copied result ≡ restriction_in vehicle.now object.now }
{
    match object {
        Object::Relation(relation) if is_obeyed(relation, vehicle) => Some(relation),
        _ => None,
    }
}

/// The turn restrictions among these objects, in their order: the relations with `type=restriction` whose
/// `except`, a list parted by `;` with blanks and tabs round an entry dropped, doesn't have the vehicle.
///
/// A restriction forbids turns by its value of `restriction`: `no_left_turn`, `no_right_turn`,
/// `no_straight_on`, `no_u_turn`, `no_entry`, `no_exit`, `only_left_turn`, `only_right_turn` or
/// `only_straight_on`. It has one way in the role `from` (`no_entry`: one or more), one node in the role
/// `via`, and one way in the role `to` (`no_exit`: one or more); members in other roles don't count. In
/// place of the node it may have one to four ways, in the order in which they are gone along, unless its
/// value is `no_entry` or `no_exit`. One with another value or none, or another number or kind of members
/// in one of these three roles, is ignored; with those that are kept they are no more than the objects.
/// The only error is want of memory.
pub fn rules(alloc: Global, objects: &[Object], vehicle: &str) -> Result<Rules, AllocError>
    ensures value { IfOk result (λ r. r ≡ rules_of objects.now vehicle.now) }
    ensures few { IfOk result (λ r. length r.kept + length r.along + r.ignored ≤ length objects.now) }
{
    let mut kept = Vec::new(alloc);
    let mut along = Vec::new(alloc);
    let mut ignored = 0;
    for object in objects {
        if let Some(relation) = restriction_in(object, vehicle) {
            if let Some(restriction) = Restriction::of(alloc, relation)? {
                kept.push(restriction)?;
            } else if let Some(restriction) = ViaRestriction::of(alloc, relation)? {
                along.push(restriction)?;
            } else {
                ignored += 1;
            }
        }
    }
    Ok(Rules::of(kept, along, ignored))
}
