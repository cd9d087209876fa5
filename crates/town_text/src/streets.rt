//! The lines of the rows and columns.

ghost use Rattle.std.specs.Prelude.{◌≡◌, ◌<◌, ◌≤◌, ◌++◌, IfOk, OnOk, string_bytes};
ghost use Rattle.town_text.specs.Town.{column_direction, column_head, column_line, column_lines, row_class, row_head, row_line, row_lines};

use crate::lines::{node_id, push_nodes_along};
use std::alloc::{AllocError, Global};

// The class of a row.
#[tactic(auto, unfolding(crate::specs::Town::row_class))]
fn row_class(row: u32) -> &'static str
    ensures { result.now ≡ row_class row }
{
    if row % 4 == 0 {
        "primary"
    } else {
        "residential"
    }
}

// The tag of the direction of a column, if it has one.
#[tactic(auto, unfolding(crate::specs::Town::column_direction))]
fn column_direction(column: u32) -> &'static str
    ensures { result.now ≡ column_direction column }
{
    if column % 4 == 1 {
        ",oneway=yes"
    } else if column % 4 == 3 {
        ",oneway=-1"
    } else {
        ""
    }
}

// The line of a row up to its nodes.
#[tactic(auto, unfolding(crate::specs::Town::row_head))]
fn row_head(alloc: Global, row: u32) -> Result<String, AllocError>
    requires { row < 1000 }
    ensures { IfOk result (λ head. string_bytes head ≡ row_head row) }
{
    let way = row + 1;
    let class = row_class(row);
    format!(in alloc; "w{way} Thighway={class},name=Row%20%{row} N")
}

// Puts the line of a row behind a text.
#[tactic(auto, unfolding(crate::specs::Town::row_line))]
fn push_row(alloc: Global, text: &mut String, n: u32, row: u32) -> Result<(), AllocError>
    requires few { n ≤ 1000 }
    requires row { row < n }
    ensures { OnOk result (string_bytes text.new ≡ string_bytes text.old ++ row_line n row) }
{
    let head = row_head(alloc, row)?;
    text.push_str(&head)?;
    push_nodes_along(alloc, text, n, node_id(n, 0, row), 1)?;
    text.push_str("\n")
}

/// Puts the lines of all rows behind a text.
#[tactic(auto, unfolding(crate::specs::Town::row_lines))]
pub(crate) fn push_rows(alloc: Global, text: &mut String, n: u32) -> Result<(), AllocError>
    requires { n ≤ 1000 }
    ensures { OnOk result (string_bytes text.new ≡ string_bytes text.old ++ row_lines n) }
{
    for row in 0..n {
        push_row(alloc, text, n, row)?;
    }
    Ok(())
}

// The line of a column up to its direction.
#[tactic(auto, unfolding(crate::specs::Town::column_head))]
fn column_head(alloc: Global, n: u32, column: u32) -> Result<String, AllocError>
    requires few { n ≤ 1000 }
    requires column { column < n }
    ensures { IfOk result (λ head. string_bytes head ≡ column_head n column) }
{
    let way = n + column + 1;
    format!(in alloc; "w{way} Thighway=residential,name=Column%20%{column}")
}

// Puts the line of a column behind a text.
#[tactic(auto, unfolding(crate::specs::Town::column_line))]
fn push_column(alloc: Global, text: &mut String, n: u32, column: u32) -> Result<(), AllocError>
    requires few { n ≤ 1000 }
    requires column { column < n }
    ensures { OnOk result (string_bytes text.new ≡ string_bytes text.old ++ column_line n column) }
{
    let head = column_head(alloc, n, column)?;
    text.push_str(&head)?;
    text.push_str(column_direction(column))?;
    text.push_str(" N")?;
    push_nodes_along(alloc, text, n, node_id(n, column, 0), n)?;
    text.push_str("\n")
}

/// Puts the lines of all columns behind a text.
#[tactic(auto, unfolding(crate::specs::Town::column_lines))]
pub(crate) fn push_columns(alloc: Global, text: &mut String, n: u32) -> Result<(), AllocError>
    requires { n ≤ 1000 }
    ensures { OnOk result (string_bytes text.new ≡ string_bytes text.old ++ column_lines n) }
{
    for column in 0..n {
        push_column(alloc, text, n, column)?;
    }
    Ok(())
}
