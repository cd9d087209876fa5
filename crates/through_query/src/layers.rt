//! What chains cost up to each state of a place.

ghost use Rattle.std.specs.Prelude.{◌≡◌, ℕ, ◌^◌, ◌<◌, length, IfOk, Some, None};
ghost use Rattle.through_query.specs.Layers.{AreSumsWithin, IsLayer, IsStart, state_of, sum_of};

use crate::legs::LegCosts;
use crate::steps::{Step, least_step};
use crate::sums::Sum;
use std::alloc::{AllocError, Global};

/// What chains cost up to a place.
#[derive(Drop)]
pub(crate) struct Layer {
    /// for each state of the place the least sum with which a chain comes to it, `None` where none does
    pub sums: Vec<Option<Sum>>,
    /// the state of the place before from which that chain comes; any number where none does
    pub befores: Vec<u32>,
}

// The sum of a step.
fn sum_of(step: Option<Step>) -> Option<Sum>
    ensures { result ≡ sum_of step }
{
    match step {
        Some(step) => Some(step.sum),
        None => None,
    }
}

// The state of a step.
fn state_of(step: Option<Step>) -> u32
    ensures { result ≡ state_of step }
{
    match step {
        Some(step) => step.state,
        None => 0,
    }
}

/// The sums at the first place, where nothing is paid yet.
pub(crate) fn first_sums(alloc: Global, states: u32) -> Result<Vec<Option<Sum>>, AllocError>
    ensures start { IfOk result (λ sums. IsStart states sums.items) }
    ensures few { IfOk result (λ sums. length sums.items < 2 ^ 32) }
{
    let mut sums = Vec::with_capacity(alloc, states as usize)?;
    for _ in 0..states {
        sums.push(Some(Sum::zero()))?;
    }
    Ok(sums)
}

/// The layer behind a leg, by the sums in front of it.
pub(crate) fn layer_behind(
    alloc: Global,
    sums: &[Option<Sum>],
    leg: &LegCosts,
) -> Result<Layer, AllocError>
    requires few { length sums.now < 2 ^ 32 }
    requires room { (n : ℕ) × (n < 2 ^ 32) × AreSumsWithin n sums.now }
    ensures layer { IfOk result (λ layer. IsLayer sums.now leg.now layer) }
    ensures few { IfOk result (λ layer. length layer.sums.items < 2 ^ 32) }
{
    let mut reached = Vec::with_capacity(alloc, leg.ends as usize)?;
    let mut befores = Vec::with_capacity(alloc, leg.ends as usize)?;
    for end in 0..leg.ends {
        let step = least_step(sums, leg, end);
        reached.push(sum_of(step))?;
        befores.push(state_of(step))?;
    }
    Ok(Layer {
        sums: reached,
        befores,
    })
}
