//! The lines of the forbidden turns.

ghost use Rattle.std.specs.Prelude.{◌≡◌, ◌<◌, ◌≤◌, ◌++◌, OnOk, string_bytes};
ghost use Rattle.std.specs.List.{flat_map};
ghost use Rattle.town_text.specs.Town.{forbidden_turn, inner_of, is_forbidden_at, restriction_line, restriction_lines};

use crate::lines::node_id;
use std::alloc::{AllocError, Global};

// Whether a turn is forbidden at the node in a column and a row, if it is one of those inside.
fn is_forbidden_at(column: u32, row: u32) -> bool
    requires column { column ≤ 1000 }
    requires row { row ≤ 1000 }
    ensures { result ≡ is_forbidden_at column row }
{
    (7 * column + 11 * row) % 13 == 0
}

// Puts the line of the turn that is forbidden at the node in a column and a row behind a text.
fn push_turn(
    alloc: Global,
    text: &mut String,
    n: u32,
    column: u32,
    row: u32,
) -> Result<(), AllocError>
    requires few { n ≤ 1000 }
    requires column { column < n }
    requires row { row < n }
    ensures { OnOk result (string_bytes text.new ≡ string_bytes text.old ++ forbidden_turn n column row) }
{
    let id = node_id(n, column, row);
    let (from, to) = (row + 1, n + column + 1);
    let line = format!(in alloc;
        "r{id} Ttype=restriction,restriction=no_left_turn Mw{from}@from,n{id}@via,w{to}@to\n"
    )?;
    text.push_str(&line)
}

// Puts the line of the node in a column and a row behind a text, if a turn is forbidden there.
#[tactic(auto, unfolding(crate::specs::Town::restriction_line))]
fn push_restriction(
    alloc: Global,
    text: &mut String,
    n: u32,
    column: u32,
    row: u32,
) -> Result<(), AllocError>
    requires few { n ≤ 1000 }
    requires column { column < n }
    requires row { row < n }
    ensures { OnOk result (string_bytes text.new ≡ string_bytes text.old ++ restriction_line n column row) }
{
    if !is_forbidden_at(column, row) {
        return Ok(());
    }
    push_turn(alloc, text, n, column, row)
}

// Puts the lines of the nodes inside that are in a row behind a text.
fn push_restrictions_in(
    alloc: Global,
    text: &mut String,
    n: u32,
    row: u32,
) -> Result<(), AllocError>
    requires some { 2 ≤ n }
    requires few { n ≤ 1000 }
    requires row { row < n }
    ensures { OnOk result (string_bytes text.new ≡ string_bytes text.old ++ flat_map (λ x. restriction_line n x row) (inner_of n)) }
{
    for column in 1..n - 1 {
        push_restriction(alloc, text, n, column, row)?;
    }
    Ok(())
}

/// Puts the lines of all nodes inside behind a text.
#[tactic(auto, unfolding(crate::specs::Town::restriction_lines))]
pub(crate) fn push_restrictions(alloc: Global, text: &mut String, n: u32) -> Result<(), AllocError>
    requires some { 2 ≤ n }
    requires few { n ≤ 1000 }
    ensures { OnOk result (string_bytes text.new ≡ string_bytes text.old ++ restriction_lines n) }
{
    for row in 1..n - 1 {
        push_restrictions_in(alloc, text, n, row)?;
    }
    Ok(())
}
