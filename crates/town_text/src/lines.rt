//! Parts of lines.

ghost use Rattle.std.specs.Prelude.{◌≡◌, ◌+◌, ◌*◌, ◌<◌, ◌≤◌, ◌++◌, IfOk, OnOk, string_bytes};
ghost use Rattle.town_text.specs.Town.{degrees, next_node, node_id, nodes_along};

use std::alloc::{AllocError, Global};

/// The id of the node in a column and a row of town `n`.
pub(crate) fn node_id(n: u32, column: u32, row: u32) -> u32
    requires few { n ≤ 1000 }
    requires column { column < n }
    requires row { row < n }
    ensures value { result ≡ node_id n column row }
    ensures small { result ≤ 1000000 }
{
    row * n + column + 1
}

/// So many thousandths of a degree, with six decimals.
pub(crate) fn degrees(alloc: Global, thousandths: u32) -> Result<String, AllocError>
    ensures { IfOk result (λ text. string_bytes text ≡ degrees thousandths) }
{
    let whole = thousandths / 1000;
    let first = thousandths / 100 % 10;
    let second = thousandths / 10 % 10;
    let third = thousandths % 10;
    format!(in alloc; "{whole}.{first}{second}{third}000")
}

// Puts a node of a way behind a text, and a comma between.
#[tactic(auto, unfolding(crate::specs::Town::next_node))]
fn push_next(alloc: Global, text: &mut String, id: u32) -> Result<(), AllocError>
    ensures { OnOk result (string_bytes text.new ≡ string_bytes text.old ++ next_node id) }
{
    let node = format!(in alloc; ",n{id}")?;
    text.push_str(&node)
}

/// Puts `n` nodes of a way behind a text: the first of this id, and each next one's id by `step` above the one before.
#[tactic(auto, unfolding(crate::specs::Town::nodes_along))]
pub(crate) fn push_nodes_along(
    alloc: Global,
    text: &mut String,
    n: u32,
    first: u32,
    step: u32,
) -> Result<(), AllocError>
    requires some { 1 ≤ n }
    requires few { n ≤ 1000 }
    requires first { first ≤ 1000000 }
    requires step { step ≤ 1000 }
    ensures { OnOk result (string_bytes text.new ≡ string_bytes text.old ++ nodes_along n first step) }
{
    let node = format!(in alloc; "n{first}")?;
    text.push_str(&node)?;
    for place in 1..n {
        push_next(alloc, text, first + place * step)?;
    }
    Ok(())
}
