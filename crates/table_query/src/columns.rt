//! The targets of all columns in one list, and what comes of their costs.

ghost use Rattle.std.specs.Prelude.{◌≡◌, Some, IfOk, flat_map};
ghost use Rattle.std.specs.List.{Contains};
ghost use Rattle.table_query.specs.LeastCosts.{IsLeastAmong};

use crate::choosing::lesser;
use crate::lists::Targets;
use search_graph::{Cost, Target};
use std::alloc::{AllocError, Global};

/// The targets of all columns, those of one column behind those of the column before it.
pub(crate) fn all_targets<C: Cost>(
    alloc: Global,
    targets: &[Targets<C>],
) -> Result<Vec<Target<C>>, AllocError>
    ensures { IfOk result (λ all. all.items ≡ flat_map (λ list. list) targets.now) }
{
    let mut all = Vec::new(alloc);
    for list in targets {
        all.extend_from_slice(list.as_slice())?;
    }
    Ok(all)
}

/// The least of these costs, or None where there is none.
pub(crate) fn least_of<C: Cost>(costs: &[Option<C>]) -> Option<C>
    ensures { IsLeastAmong C.ops (λ d. Contains costs.now (Some d)) result }
{
    let mut best = None;
    for cost in costs {
        best = lesser(best, *cost);
    }
    best
}
