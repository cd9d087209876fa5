//! Small expansions, worked by hand, and what is refused. A list of numbers is a text, since a proof takes time for
//! each value of a list, and none for a text.

ghost use Rattle.std.specs.Prelude.{◌≡◌, ◌<◌, All, IfOk};
ghost use Rattle.via_paths.specs.Forbidden.{HasPath, IsBelow};
ghost use Rattle.via_paths.specs.Made.{ordinary_of};

use crate::{ArcsError, Barred, Copies, ViaError};
use std::alloc::{AllocError, Global};
use std::process::Abort;
use std::test::Fail;

// How many ordinary vertices the small graphs have: copies have the numbers from 8 on.
const VERTICES: u32 = 8;

// The vertex that a text is.
fn vertex(rt: &impl Abort, text: &str) -> u32
    ensures { result < 8 }
{
    let Ok(number) = text.parse::<u32>() else {
        panic!(rt; "a number");
    };
    assert!(rt; number < VERTICES);
    number
}

// The vertices of a row, with a blank between each two.
fn row_of(rt: &impl Abort, alloc: Global, row: &str) -> Result<Vec<u32>, AllocError>
    ensures { IfOk result (λ row. All (λ v. v < 8) row.items) }
{
    let mut vertices = Vec::new(alloc);
    for text in row.split(' ') {
        if !text.is_empty() {
            vertices.push(vertex(rt, text))?;
        }
    }
    Ok(vertices)
}

// The group `starts/path/ends`.
fn group_of(rt: &impl Abort, alloc: Global, line: &str) -> Result<Barred, AllocError>
    ensures path { IfOk result HasPath }
    ensures ordinary { IfOk result (IsBelow 8) }
{
    let Some((starts, rest)) = line.split_once('/') else {
        panic!(rt; "starts");
    };
    let Some((path, ends)) = rest.split_once('/') else {
        panic!(rt; "a path");
    };
    let starts = row_of(rt, alloc, starts)?;
    let path = row_of(rt, alloc, path)?;
    let ends = row_of(rt, alloc, ends)?;
    assert!(rt; path.len() >= 1);
    Ok(Barred { starts, path, ends })
}

// The groups of a text, one a line.
fn groups_of(rt: &impl Abort, alloc: Global, text: &str) -> Result<Vec<Barred>, AllocError>
    ensures paths { IfOk result (λ groups. All HasPath groups.items) }
    ensures ordinary { IfOk result (λ groups. All (IsBelow 8) groups.items) }
{
    let mut groups = Vec::new(alloc);
    for line in text.lines() {
        groups.push(group_of(rt, alloc, line)?)?;
    }
    Ok(groups)
}

// The turn `tail-head`.
fn turn_of(rt: &impl Abort, entry: &str) -> (u32, u32)
    ensures tail { result.0 < 8 }
    ensures head { result.1 < 8 }
{
    let Some((tail, head)) = entry.split_once('-') else {
        panic!(rt; "a turn");
    };
    (vertex(rt, tail), vertex(rt, head))
}

// The turns of a text, with a blank between each two.
fn turns_of(rt: &impl Abort, alloc: Global, text: &str) -> Result<Vec<(u32, u32)>, AllocError>
    ensures { IfOk result (λ turns. All (λ t. (t.0 < 8) × (t.1 < 8)) turns.items) }
{
    let mut turns = Vec::new(alloc);
    for entry in text.split(' ') {
        turns.push(turn_of(rt, entry))?;
    }
    Ok(turns)
}

// The copies for the groups of a text.
fn made(rt: &impl Abort, alloc: Global, groups: &str) -> Result<Copies, ViaError>
    ensures { IfOk result (λ copies. ordinary_of copies ≡ 8) }
{
    let groups = groups_of(rt, alloc, groups)?;
    Copies::of(alloc, VERTICES, &groups)
}

// The arcs of a graph with copies, and behind a bar the vertices for which the copies stand.
fn told(alloc: Global, arcs: &[(u32, u32)], stands_for: &[u32]) -> Result<String, AllocError> {
    let mut text = String::new(alloc);
    for arc in arcs {
        text.push_str(format!(in alloc; "{}-{} ", arc.0, arc.1)?.as_str())?;
    }
    text.push_str("|")?;
    for v in stands_for {
        text.push_str(format!(in alloc; " {}", v)?.as_str())?;
    }
    Ok(text)
}

// What the turns of a text come to with the groups of another.
fn expanded(rt: &impl Abort, alloc: Global, groups: &str, turns: &str) -> Result<String, Fail> {
    let turns = turns_of(rt, alloc, turns)?;
    let copies = made(rt, alloc, groups)?;
    let stands_for = copies.stands_for(alloc)?;
    let arcs = copies.expand(alloc, turns)?;
    Ok(told(alloc, &arcs, &stands_for)?)
}

// Streets 0 and 1, 2 and 3, 4 and 5, one behind the other, and 6 and 7 beside the last one.
const STREETS: &str = "0-2 1-0 2-4 2-6 3-1 4-5 5-3 5-6 6-7 7-3 7-4";

#[test]
fn without_sequences_the_arcs_are_the_turns(rt: HostRuntime) -> Result<(), Fail> {
    let text = expanded(&rt, rt.alloc(), "", "0-1 1-2 2-1")?;
    assert_eq!(rt; text.as_str(), "0-1 1-2 2-1 |");
    Ok(())
}

#[test]
fn a_via_way_gets_one_copy(rt: HostRuntime) -> Result<(), Fail> {
    let text = expanded(&rt, rt.alloc(), "0/2/4", STREETS)?;
    assert_eq!(rt;
        text.as_str(),
        "0-8 1-0 2-4 2-6 3-1 4-5 5-3 5-6 6-7 7-3 7-4 8-6 | 2"
    );
    Ok(())
}

#[test]
fn sequences_that_begin_alike_share_copies(rt: HostRuntime) -> Result<(), Fail> {
    let text = expanded(&rt, rt.alloc(), "0/1/2\n0/1/2\n0/1/3", "0-1 1-2 1-3 1-4")?;
    assert_eq!(rt; text.as_str(), "0-8 1-2 1-3 1-4 8-4 | 1");
    Ok(())
}

// Each start goes with each end: who comes from 0 or from 1 may go on to 6 alone, and who comes from 5 anywhere.
#[test]
fn each_start_goes_with_each_end(rt: HostRuntime) -> Result<(), Fail> {
    let text = expanded(&rt, rt.alloc(), "0 1/2/3 4", "0-2 1-2 5-2 2-3 2-4 2-6")?;
    assert_eq!(rt; text.as_str(), "0-8 1-9 5-2 2-3 2-4 2-6 8-6 9-6 | 2 2");
    Ok(())
}

#[test]
fn the_ends_of_another_group_are_open(rt: HostRuntime) -> Result<(), Fail> {
    let text = expanded(&rt, rt.alloc(), "0/1/2\n5/1/3", "0-1 5-1 1-2 1-3")?;
    assert_eq!(rt; text.as_str(), "0-8 5-9 1-2 1-3 8-3 9-2 | 1 1");
    Ok(())
}

#[test]
fn a_group_without_a_start_or_an_end_is_none(rt: HostRuntime) -> Result<(), Fail> {
    let text = expanded(&rt, rt.alloc(), "/1/2\n0/1/", "0-1 1-2")?;
    assert_eq!(rt; text.as_str(), "0-1 1-2 |");
    Ok(())
}

// Behind 0 1 2 both 3 and 4 are forbidden; the copy of 1 2 is that of one who came from 1 alone, and may go to 3.
#[test]
fn a_copy_falls_back_to_a_shorter_one(rt: HostRuntime) -> Result<(), Fail> {
    let text = expanded(&rt, rt.alloc(), "0/1 2/3\n1/2/4", "0-1 1-2 2-3 2-4 2-5")?;
    assert_eq!(rt;
        text.as_str(),
        "0-8 1-9 2-3 2-4 2-5 8-10 9-3 9-5 10-5 | 1 2 2"
    );
    Ok(())
}

// The copy of 0 1 2 3, in which the other has run, is there, but no arc leads to it.
#[test]
fn a_sequence_may_stand_inside_another(rt: HostRuntime) -> Result<(), Fail> {
    let text = expanded(&rt, rt.alloc(), "1/2/3\n0/1 2 3/4", "0-1 1-2 2-3 3-4")?;
    assert_eq!(rt; text.as_str(), "0-9 1-8 2-3 3-4 9-10 | 2 1 2 3");
    Ok(())
}

// Who goes round once more is still on the way to the forbidden end.
#[test]
fn a_walk_that_repeats_stays_on_its_sequence(rt: HostRuntime) -> Result<(), Fail> {
    let text = expanded(&rt, rt.alloc(), "0/1 0 1/2", "0-1 1-0 1-2")?;
    assert_eq!(rt; text.as_str(), "0-8 1-0 1-2 8-9 8-2 9-10 10-9 | 1 0 1");
    Ok(())
}

// A text, and between it and a last one another as many times.
fn repeated(
    alloc: Global,
    first: &str,
    again: &str,
    last: &str,
    times: u32,
) -> Result<String, AllocError> {
    let mut text = String::from_str(alloc, first)?;
    for _ in 0..times {
        text.push_str(again)?;
    }
    text.push_str(last)?;
    Ok(text)
}

// A sequence of 2^20 + 3 vertices has one proper prefix too many.
#[test]
fn one_copy_too_many_is_refused(rt: HostRuntime) -> Result<(), Fail> {
    let group = repeated(rt.alloc(), "0/", " 1", "/1", 1048577)?;
    let refused = made(&rt, rt.alloc(), group.as_str()).err();
    assert_eq!(rt; refused, Some(ViaError::TooManyVias));
    Ok(())
}

// 2^10 copies of 1, from which 2^17 turns lead: with these there are more than 2^27 arcs, and none is made.
#[test]
fn too_many_arcs_are_refused(rt: HostRuntime) -> Result<(), Fail> {
    let group = repeated(rt.alloc(), "0/", " 1", "/1", 1024)?;
    let turns = repeated(rt.alloc(), "1-0", " 1-0", "", 131071)?;
    let turns = turns_of(&rt, rt.alloc(), turns.as_str())?;
    let refused = made(&rt, rt.alloc(), group.as_str())?
        .expand(rt.alloc(), turns)
        .err();
    assert_eq!(rt; refused, Some(ArcsError::TooManyTurns));
    Ok(())
}
