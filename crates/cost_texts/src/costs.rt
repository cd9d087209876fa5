//! What costs are told as.

use cost_lists::CostRow;
use search_graph::WeightDurLen;
use std::alloc::{AllocError, Global};

/// A cost as its weight, its duration and its length, and a blank behind it; `-` for none.
pub fn cost_told(alloc: Global, cost: Option<WeightDurLen>) -> Result<String, AllocError> {
    match cost {
        Some(cost) => format!(in alloc; "{}/{}/{} ", cost.weight, cost.duration, cost.length),
        None => String::from_str(alloc, "- "),
    }
}

/// Costs, each with a blank behind it.
pub fn costs_told(alloc: Global, costs: &[Option<WeightDurLen>]) -> Result<String, AllocError> {
    let mut text = String::new(alloc);
    for cost in costs {
        text.push_str(cost_told(alloc, *cost)?.as_str())?;
    }
    Ok(text)
}

/// The costs of a row, each with a blank behind it.
pub fn row_told(alloc: Global, row: &CostRow<'_, WeightDurLen>) -> Result<String, AllocError> {
    let mut text = String::new(alloc);
    for place in 0..row.len() {
        text.push_str(cost_told(alloc, row.get(place))?.as_str())?;
    }
    Ok(text)
}
