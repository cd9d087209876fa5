//! The text of a town.

ghost use Rattle.std.specs.Prelude.{◌≡◌, ◌≤◌, IfOk, string_bytes};
ghost use Rattle.town_text.specs.Town.{town_text};

use crate::nodes::push_nodes;
use crate::restrictions::push_restrictions;
use crate::streets::{push_columns, push_rows};
use std::alloc::{AllocError, Global};

/// The text of town `n` in OPL: `n` times `n` nodes, a thousandth of a degree apart, then `n` rows, `n` columns and
/// the turns that are forbidden at some of the nodes inside. It answers an error only where memory runs out.
#[tactic(auto, unfolding(crate::specs::Town::town_text))]
pub fn town(alloc: Global, n: u32) -> Result<String, AllocError>
    requires some { 2 ≤ n }
    requires few { n ≤ 1000 }
    ensures { IfOk result (λ text. string_bytes text ≡ town_text n) }
{
    let mut text = String::new(alloc);
    push_nodes(alloc, &mut text, n)?;
    push_rows(alloc, &mut text, n)?;
    push_columns(alloc, &mut text, n)?;
    push_restrictions(alloc, &mut text, n)?;
    Ok(text)
}
