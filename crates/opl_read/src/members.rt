//! The members of relations.

ghost use Rattle.std.specs.Prelude.{◌≡◌, Ok, IfOk, IfErr};
ghost use Rattle.opl_read.specs.Members.{kind_of, member_of, members_of};
ghost use Rattle.opl_read.specs.Faults.{IsLineErrorOf};

use crate::cutting::{entry_count, parted_at};
use crate::escapes::unescaped;
use crate::line_faults::{FaultKind, LineError};
use decimal_text::id;
use road_base::{Kind, Member, Members};
use std::alloc::Global;

// The members of a field `M`.
pub(crate) fn members_of(alloc: Global, content: &str) -> Result<Members, LineError>
    ensures members { IfOk result (λ members. members_of content.now ≡ Ok members) }
    ensures fault { IfErr result (IsLineErrorOf (members_of content.now)) }
{
    if content.is_empty() {
        return Ok(Members::of(Vec::new(alloc)));
    }
    let mut members = Vec::with_capacity(alloc, entry_count(content))?;
    let mut rest = content;
    while let Some((entry, more)) = parted_at(rest, b',') {
        members.push(member_of(alloc, entry)?)?;
        rest = more;
    }
    members.push(member_of(alloc, rest)?)?;
    Ok(Members::of(members))
}

fn member_of(alloc: Global, entry: &str) -> Result<Member, LineError>
    ensures member { IfOk result (λ member. member_of entry.now ≡ Ok member) }
    ensures fault { IfErr result (IsLineErrorOf (member_of entry.now)) }
{
    let Some((named, role)) = parted_at(entry, b'@') else {
        return Err(LineError::Fault(FaultKind::BadField));
    };
    let Some((letter, number)) = named.as_bytes().split_first() else {
        return Err(LineError::Fault(FaultKind::BadField));
    };
    let Some(kind) = kind_of(*letter) else {
        return Err(LineError::Fault(FaultKind::BadField));
    };
    let Some(id) = id(number) else {
        return Err(LineError::Fault(FaultKind::BadNumber));
    };
    let role = unescaped(alloc, role)?;
    Ok(Member { kind, id, role })
}

// The kind of object that a letter names.
fn kind_of(letter: u8) -> Option<Kind>
    ensures { result ≡ kind_of letter }
{
    match letter {
        b'n' => Some(Kind::Node),
        b'w' => Some(Kind::Way),
        b'r' => Some(Kind::Relation),
        _ => None,
    }
}
