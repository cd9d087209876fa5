//! The lines of the nodes.

ghost use Rattle.std.specs.Prelude.{◌≡◌, ◌<◌, ◌≤◌, ◌++◌, OnOk, string_bytes};
ghost use Rattle.std.specs.List.{flat_map};
ghost use Rattle.town_text.specs.Town.{all_of, node_line, node_lines};

use crate::lines::{degrees, node_id};
use std::alloc::{AllocError, Global};

// Puts the line of the node in a column and a row behind a text.
#[tactic(auto, unfolding(crate::specs::Town::node_line))]
fn push_node(
    alloc: Global,
    text: &mut String,
    n: u32,
    column: u32,
    row: u32,
) -> Result<(), AllocError>
    requires few { n ≤ 1000 }
    requires column { column < n }
    requires row { row < n }
    ensures { OnOk result (string_bytes text.new ≡ string_bytes text.old ++ node_line n column row) }
{
    let id = node_id(n, column, row);
    let east = degrees(alloc, column)?;
    let north = degrees(alloc, row)?;
    let line = format!(in alloc; "n{id} x{east} y{north}\n")?;
    text.push_str(&line)
}

// Puts the lines of the nodes in a row behind a text.
fn push_nodes_in(alloc: Global, text: &mut String, n: u32, row: u32) -> Result<(), AllocError>
    requires few { n ≤ 1000 }
    requires row { row < n }
    ensures { OnOk result (string_bytes text.new ≡ string_bytes text.old ++ flat_map (λ x. node_line n x row) (all_of n)) }
{
    for column in 0..n {
        push_node(alloc, text, n, column, row)?;
    }
    Ok(())
}

/// Puts the lines of all nodes behind a text.
#[tactic(auto, unfolding(crate::specs::Town::node_lines))]
pub(crate) fn push_nodes(alloc: Global, text: &mut String, n: u32) -> Result<(), AllocError>
    requires { n ≤ 1000 }
    ensures { OnOk result (string_bytes text.new ≡ string_bytes text.old ++ node_lines n) }
{
    for row in 0..n {
        push_nodes_in(alloc, text, n, row)?;
    }
    Ok(())
}
