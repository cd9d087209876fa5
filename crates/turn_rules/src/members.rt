//! The members of a turn restriction.

ghost use Rattle.std.specs.Prelude.{◌≡◌, IfOk, codes};
ghost use Rattle.turn_rules.specs.Rules.{is_kind, is_number, members_as, one_in, up_to_four, vias_in, ways_in};

use road_base::{Ids, Kind, Member};
use std::alloc::{AllocError, Global};

// The id of the one object of a kind in a role, or None where anything else is in it.
pub(crate) fn one_as(members: &[Member], role: &str, kind: Kind) -> Option<i64>
    ensures { result ≡ one_in kind (members_as role.now members.now) }
{
    let mut one = None;
    for member in members {
        if member.role.as_str() == role {
            if one.is_some() || !is_kind(kind, member.kind) {
                return None;
            }
            one = Some(member.id);
        }
    }
    one
}

// The ids of the one to four ways in the role `via`, in their order; None where anything else is in it.
pub(crate) fn vias_of(alloc: Global, members: &[Member]) -> Result<Option<Ids>, AllocError>
    ensures { IfOk result (λ vias. vias ≡ vias_in (members_as (codes "via") members.now)) }
{
    match ways_as(alloc, members, "via", true)? {
        Some(ways) => Ok(up_to_four(ways)),
        None => Ok(None),
    }
}

// The ids, if there are at most four.
fn up_to_four(ids: Ids) -> Option<Ids>
    ensures { result ≡ up_to_four ids }
{
    if ids.as_slice().len() <= 4 {
        Some(ids)
    } else {
        None
    }
}

// The ids of the one way in a role, or of several where there may be; None where anything else is in it.
pub(crate) fn ways_as(
    alloc: Global,
    members: &[Member],
    role: &str,
    several: bool,
) -> Result<Option<Ids>, AllocError>
    ensures { IfOk result (λ ways. ways ≡ ways_in several (members_as role.now members.now)) }
{
    let mut ways = Vec::new(alloc);
    for member in members {
        if member.role.as_str() == role {
            if !is_kind(Kind::Way, member.kind) {
                return Ok(None);
            }
            ways.push(member.id)?;
        }
    }
    if is_number(several, ways.len()) {
        Ok(Some(Ids::of(ways)))
    } else {
        Ok(None)
    }
}

// Whether there may be so many.
fn is_number(several: bool, count: usize) -> bool
    ensures { result ≡ is_number several count }
{
    count == 1 || (several && count != 0)
}

fn is_kind(kind: Kind, other: Kind) -> bool
    ensures { result ≡ is_kind kind other }
{
    kind == other
}
