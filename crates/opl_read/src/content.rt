//! What the contents of fields stand for.

ghost use Rattle.std.specs.Prelude.{◌≡◌, ◌++◌, ◌∷◌, [], Ok, IfOk, IfErr, IsTrue, codes, ◌==◌};
ghost use Rattle.std.specs.List.{before_first};
ghost use Rattle.std.specs.Str.{byte};
ghost use Rattle.decimal_text.specs.ObjectId.{id_of};
ghost use Rattle.opl_read.specs.Content.{tag_of, tags_of, ref_of, refs_of, coordinate_of, deleted_of};
ghost use Rattle.opl_read.specs.Faults.{IsLineErrorOf, mapped};

use crate::cutting::{entry_count, parted_at, position_of};
use crate::escapes::{is_plain, unescaped};
use crate::line_faults::{FaultKind, LineError};
use decimal_text::{id, microdegrees};
use road_base::{Ids, Tags};
use std::alloc::Global;

// The tags of a field `T`.
pub(crate) fn tags_of(alloc: Global, content: &str) -> Result<Tags, LineError>
    ensures tags { IfOk result (λ tags. tags_of content.now ≡ Ok tags) }
    ensures fault { IfErr result (IsLineErrorOf (tags_of content.now)) }
{
    if content.is_empty() {
        return Ok(Tags::new(alloc));
    }
    let mut tags = Tags::with_capacity(alloc, content.len() + 1)?;
    let mut rest = content;
    while let Some((entry, more)) = parted_at(rest, b',') {
        tags = with_tag(alloc, tags, entry)?;
        rest = more;
    }
    with_tag(alloc, tags, rest)
}

// The tags and the one of this entry.
fn with_tag(alloc: Global, tags: Tags, entry: &str) -> Result<Tags, LineError>
    ensures tag { IfOk result (λ more. mapped (λ tag. tags ++ tag ∷ []) (tag_of entry.now) ≡ Ok more) }
    ensures fault { IfErr result (IsLineErrorOf (tag_of entry.now)) }
{
    let Some((key, value)) = parted_at(entry, b'=') else {
        return Err(LineError::Fault(FaultKind::BadField));
    };
    if is_plain(key) && is_plain(value) {
        return Ok(tags.with(key, value)?);
    }
    let key = unescaped(alloc, key)?;
    let value = unescaped(alloc, value)?;
    Ok(tags.with(key.as_str(), value.as_str())?)
}

// The ids of a field `N`.
pub(crate) fn refs_of(alloc: Global, content: &str) -> Result<Ids, LineError>
    ensures refs { IfOk result (λ ids. refs_of content.now ≡ Ok ids) }
    ensures fault { IfErr result (IsLineErrorOf (refs_of content.now)) }
{
    if content.is_empty() {
        return Ok(Ids::of(Vec::new(alloc)));
    }
    let mut ids = Vec::with_capacity(alloc, entry_count(content))?;
    let mut rest = content;
    while let Some((entry, more)) = parted_at(rest, b',') {
        ids.push(ref_of(entry)?)?;
        rest = more;
    }
    ids.push(ref_of(rest)?)?;
    Ok(Ids::of(ids))
}

fn ref_of(entry: &str) -> Result<i64, LineError>
    ensures id { IfOk result (λ id. ref_of entry.now ≡ Ok id) }
    ensures fault { IfErr result (IsLineErrorOf (ref_of entry.now)) }
{
    let text = entry.as_bytes();
    if !text.starts_with(b"n") {
        return Err(LineError::Fault(FaultKind::BadField));
    }
    match id_of_node(&text[1..]) {
        Some(id) => Ok(id),
        None => Err(LineError::Fault(FaultKind::BadNumber)),
    }
}

// The id before the first `x`. Most have no place behind them: then there is no `x` to look for.
fn id_of_node(text: &[u8]) -> Option<i64>
    ensures { result ≡ id_of (before_first (λ b. b == byte "x") text.now) }
{
    match id(text) {
        Some(id) => Some(id),
        None => id(before_x(text)),
    }
}

// What stands before the first `x`, or all.
fn before_x(text: &[u8]) -> &[u8]
    ensures { result.now ≡ before_first (λ b. b == byte "x") text.now }
{
    match position_of(text, b'x') {
        Some(at) => &text[..at],
        None => text,
    }
}

// The coordinate of a field `x` or `y`.
pub(crate) fn coordinate_of(greatest: u64, content: &str) -> Result<Option<i64>, LineError>
    ensures value { IfOk result (λ value. coordinate_of greatest content.now ≡ Ok value) }
    ensures fault { IfErr result (IsLineErrorOf (coordinate_of greatest content.now)) }
{
    if content.is_empty() {
        return Ok(None);
    }
    match microdegrees(content.as_bytes()) {
        Some(value) if value.unsigned_abs() <= greatest => Ok(Some(value)),
        Some(_) => Err(LineError::Fault(FaultKind::BadNumber)),
        None => Err(LineError::Fault(FaultKind::BadField)),
    }
}

// Whether a field `d` says that the object is deleted.
pub(crate) fn deleted_of(content: &str) -> Result<bool, LineError>
    ensures deleted { IfOk result (λ deleted. deleted_of content.now ≡ Ok deleted) }
    ensures fault { IfErr result (IsLineErrorOf (deleted_of content.now)) }
{
    if content == "D" {
        Ok(true)
    } else if content == "V" {
        Ok(false)
    } else {
        Err(LineError::Fault(FaultKind::BadField))
    }
}
