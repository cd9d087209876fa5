//! The parts of costs that replies tell, and lists of them.

ghost use Rattle.std.specs.Prelude.{◌≡◌, OnOk};
ghost use Rattle.json_text.specs.Drafts.{TakesValue, with_value};
ghost use Rattle.reply_texts.specs.Costs.{cell_value, costs_value, part_of, row_value, rows_value};

use json_text::Json;
use route_steps::speed;
use search_graph::WeightDurLen;
use std::alloc::AllocError;
use table_query::Row;

/// A part of a cost, or what follows from two.
#[derive(Clone, Copy, Debug, PartialEq, Eq)]
pub enum CostPart {
    /// Decimetres.
    Length,
    /// Deciseconds.
    Duration,
    /// Tenths of what is printed.
    Weight,
    /// Tenths of metres a second.
    Speed,
}

impl CostPart {
    /// This part of a cost.
    fn of(self, cost: WeightDurLen) -> u128
        ensures { result ≡ part_of self cost }
    {
        match self {
            CostPart::Length => u128::from(cost.length),
            CostPart::Duration => u128::from(cost.duration),
            CostPart::Weight => u128::from(cost.weight),
            CostPart::Speed => speed(cost),
        }
    }
}

// A list of one part of costs.
pub(crate) fn push_costs(
    json: &mut Json,
    part: CostPart,
    costs: &[WeightDurLen],
) -> Result<(), AllocError>
    requires { TakesValue json.old }
    ensures { OnOk result (json.new ≡ with_value (costs_value part costs.now) json.old) }
{
    json.begin_list()?;
    for cost in costs {
        json.tenths(part.of(*cost))?;
    }
    json.end_list()?;
    Ok(())
}

// A cell of a table.
fn push_cell(json: &mut Json, part: CostPart, cell: Option<WeightDurLen>) -> Result<(), AllocError>
    requires { TakesValue json.old }
    ensures { OnOk result (json.new ≡ with_value (cell_value part cell) json.old) }
{
    match cell {
        Some(cost) => json.tenths(part.of(cost)),
        None => json.null(),
    }
}

// A row of a table.
fn push_row(json: &mut Json, part: CostPart, row: &[Option<WeightDurLen>]) -> Result<(), AllocError>
    requires { TakesValue json.old }
    ensures { OnOk result (json.new ≡ with_value (row_value part row.now) json.old) }
{
    json.begin_list()?;
    for cell in row {
        push_cell(json, part, *cell)?;
    }
    json.end_list()?;
    Ok(())
}

// The rows of a table.
pub(crate) fn push_rows(
    json: &mut Json,
    part: CostPart,
    rows: &[Row<WeightDurLen>],
) -> Result<(), AllocError>
    requires { TakesValue json.old }
    ensures { OnOk result (json.new ≡ with_value (rows_value part rows.now) json.old) }
{
    json.begin_list()?;
    for row in rows {
        push_row(json, part, row.as_slice())?;
    }
    json.end_list()?;
    Ok(())
}
