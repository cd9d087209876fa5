//! What legs and steps cost.

ghost use Rattle.std.specs.Prelude.{◌≡◌, OnOk};
ghost use Rattle.json_text.specs.Drafts.{TakesKey};
ghost use Rattle.json_text.specs.Wholes.{with_members};
ghost use Rattle.step_texts.specs.Totals.{leg_totals, totals_members};

use json_text::Json;
use search_graph::WeightDurLen;
use std::alloc::AllocError;

/// What a leg or a step costs, or the legs of a route together: a length in decimetres, a duration in deciseconds, and a
/// weight in tenths of what a reply prints.
#[derive(Clone, Copy, Debug, PartialEq, Eq)]
pub struct Totals {
    pub length: u128,
    pub duration: u128,
    pub weight: u128,
}

/// What a leg or a step costs.
pub fn leg_totals(cost: WeightDurLen) -> Totals
    ensures { result ≡ leg_totals cost }
{
    Totals {
        length: u128::from(cost.length),
        duration: u128::from(cost.duration),
        weight: u128::from(cost.weight),
    }
}

/// Its length in metres, its duration in seconds and its weight, as members of an object. An `Err` is want of memory.
pub fn push_totals(json: &mut Json, totals: Totals) -> Result<(), AllocError>
    requires { TakesKey json.old }
    ensures ok { OnOk result (json.new ≡ with_members (totals_members totals) json.old) }
    ensures more { OnOk result (TakesKey json.new) }
{
    json.tenths_member("distance", totals.length)?;
    json.tenths_member("duration", totals.duration)?;
    json.tenths_member("weight", totals.weight)?;
    Ok(())
}
