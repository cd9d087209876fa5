//! The least of some sums.

ghost use Rattle.std.specs.Prelude.{ℕ, ◌+◌, ◌^◌, ◌<◌, length, IfSome};
ghost use Rattle.through_query.specs.Layers.{AreSumsWithin, IsLesser, IsStep, IsSumWithin, by_leg, sum_at};

use crate::legs::LegCosts;
use crate::sums::{Sum, both};

/// A state, and the sum of a chain through it.
#[derive(Clone, Copy, Drop)]
pub(crate) struct Step {
    pub state: u32,
    pub sum: Sum,
}

// Of the best step so far and that by a state, where it has a sum, the lesser; of two that are equal the first.
fn lesser(best: Option<Step>, state: u32, sum: Option<Sum>) -> Option<Step>
    ensures { IsLesser best state sum result }
{
    match (best, sum) {
        (Some(step), Some(sum)) => {
            if sum.cmp(&step.sum).is_lt() {
                Some(Step { state, sum })
            } else {
                best
            }
        }
        (None, Some(sum)) => Some(Step { state, sum }),
        (_, None) => best,
    }
}

/// The first of the states at which the sum is least, or `None` where none has a sum.
pub(crate) fn least_state(sums: &[Option<Sum>]) -> Option<Step>
    requires few { length sums.now < 2 ^ 32 }
    ensures { IsStep (sum_at sums.now) (length sums.now) result }
{
    let mut best = None;
    for state in 0..sums.len() {
        best = lesser(best, state as u32, sums[state]);
    }
    best
}

/// The first of the states from which the leg leads to this end with the least sum, by the sums up to them, or `None`
/// where it leads there from none.
pub(crate) fn least_step(sums: &[Option<Sum>], leg: &LegCosts, end: u32) -> Option<Step>
    requires few { length sums.now < 2 ^ 32 }
    requires room { (n : ℕ) × (n < 2 ^ 32) × AreSumsWithin n sums.now }
    ensures least { IsStep (by_leg sums.now leg.now end) (length sums.now) result }
    ensures room { (n : ℕ) → AreSumsWithin n sums.now → IfSome result (λ step. IsSumWithin (n + 1) step.sum) }
{
    let mut best = None;
    for state in 0..sums.len() {
        let sum = both(sums[state], leg.cost(state as u32, end));
        best = lesser(best, state as u32, sum);
    }
    best
}
