//! What one line stands for.

ghost use Rattle.std.specs.Prelude.{◌≡◌, ◌<◌, ◌==◌, Ok, IfOk, IfErr, slice_index};
ghost use Rattle.decimal_text.specs.ObjectId.{id_of};
ghost use Rattle.opl_read.specs.Cutting.{fields_of};
ghost use Rattle.opl_read.specs.Faults.{IsLineErrorOf};
ghost use Rattle.opl_read.specs.LineText.{line_of, of_text, with_first_field, with_id, without_ending, without_last};

use crate::cutting::first_field;
use crate::line_faults::{FaultKind, LineError};
use crate::line_parts::parts_of;
use decimal_text::id;
use road_base::{Kind, Object};
use std::alloc::Global;

// The object of a line with its newline, or None where the line has none.
#[tactic(auto, unfolding(crate::specs::LineText::line_of))]
pub(crate) fn object_on(alloc: Global, line: &[u8]) -> Result<Option<Object>, LineError>
    ensures object { IfOk result (λ object. line_of line.now ≡ Ok object) }
    ensures fault { IfErr result (IsLineErrorOf (line_of line.now)) }
{
    match std::str::from_utf8(without_ending(line)) {
        Ok(text) => object_in(alloc, text),
        Err(_) => Err(LineError::Fault(FaultKind::NotUtf8)),
    }
}

// A line without its newline and a carriage return before that.
fn without_ending(line: &[u8]) -> &[u8]
    ensures { result.now ≡ without_ending line.now }
{
    without_last(b'\r', without_last(b'\n', line))
}

fn without_last(last: u8, text: &[u8]) -> &[u8]
    requires { 0 < last }
    ensures { result.now ≡ without_last last text.now }
{
    if !text.is_empty() && text[text.len() - 1] == last {
        &text[..text.len() - 1]
    } else {
        text
    }
}

fn object_in(alloc: Global, text: &str) -> Result<Option<Object>, LineError>
    ensures object { IfOk result (λ object. of_text text.now ≡ Ok object) }
    ensures fault { IfErr result (IsLineErrorOf (of_text text.now)) }
{
    if is_comment(text) {
        return Ok(None);
    }
    match first_field(text) {
        Some((first, behind)) => object_behind(alloc, first, behind),
        None => Ok(None),
    }
}

fn is_comment(text: &str) -> bool
    ensures { result ≡ (slice_index text.now 0 == 35) }
{
    match text.as_bytes().first() {
        Some(first) => *first == b'#',
        None => false,
    }
}

// The object that the first field names, with the fields behind it.
fn object_behind(alloc: Global, first: &str, behind: &str) -> Result<Option<Object>, LineError>
    ensures object { IfOk result (λ object. with_first_field first.now (fields_of behind.now) ≡ Ok object) }
    ensures fault { IfErr result (IsLineErrorOf (with_first_field first.now (fields_of behind.now))) }
{
    let Some((letter, number)) = first.as_bytes().split_first() else {
        return Ok(None);
    };
    match *letter {
        b'n' => object_with(alloc, Kind::Node, number, behind),
        b'w' => object_with(alloc, Kind::Way, number, behind),
        b'r' => object_with(alloc, Kind::Relation, number, behind),
        b'c' => Ok(None),
        _ => Err(LineError::Fault(FaultKind::BadKind)),
    }
}

fn object_with(
    alloc: Global,
    kind: Kind,
    number: &[u8],
    behind: &str,
) -> Result<Option<Object>, LineError>
    ensures object { IfOk result (λ object. with_id kind (id_of number.now) (fields_of behind.now) ≡ Ok object) }
    ensures fault { IfErr result (IsLineErrorOf (with_id kind (id_of number.now) (fields_of behind.now))) }
{
    let Some(id) = id(number) else {
        return Err(LineError::Fault(FaultKind::BadNumber));
    };
    let parts = parts_of(alloc, kind, behind)?;
    Ok(parts.into_object(kind, id))
}
