//! The least chain.

ghost use Rattle.std.specs.Prelude.{◌≡◌, ◌∷◌, [], ◌^◌, ◌<◌, length, IfOk};
ghost use Rattle.through_query.specs.Chains.{IsAnswer};
ghost use Rattle.through_query.specs.Layers.{GoesBack, back};

use crate::layers::{first_sums, layer_behind};
use crate::legs::LegCosts;
use crate::steps::least_state;
use std::alloc::{AllocError, Global};

/// What there is of chains through all legs.
#[derive(Drop)]
pub enum Chain {
    /// A least one: the state at each place, by its number, one more than there are legs.
    States(Vec<u32>),
    /// None: the number of the first leg behind which nothing reaches.
    Broken(u32),
}

// The states of a chain to this one of the last place, by the states before those of each leg.
fn states_back(alloc: Global, befores: &[Vec<u32>], last: u32) -> Result<Vec<u32>, AllocError>
    requires { GoesBack (length befores.now) befores.now last }
    ensures { IfOk result (λ states. states.items ≡ back (length befores.now) befores.now (last ∷ [])) }
{
    let mut states = Vec::new(alloc);
    states.push(last)?;
    let mut state = last;
    let mut number = befores.len();
    while number > 0 {
        number -= 1;
        state = befores[number][state as usize];
        states.push(state)?;
    }
    states.reverse();
    Ok(states)
}

/// The least chain through all legs: a state at each place, so that what the legs cost between them is least together.
///
/// A chain is in no place bound to a state, also not at the first and the last. Of several that cost the least it ends
/// in the first state by number, and so on backwards. Where no chain goes through all legs it answers the first leg
/// behind which none comes.
///
/// It answers the error where memory runs out.
pub fn least_chain(alloc: Global, legs: &[LegCosts]) -> Result<Chain, AllocError>
    requires some { 0 < length legs.now }
    requires few { length legs.now < 2 ^ 32 }
    ensures { IfOk result (IsAnswer legs.now) }
{
    let mut sums = first_sums(alloc, legs[0].starts)?;
    let mut befores = Vec::new(alloc);
    let mut last = 0;
    for number in 0..legs.len() {
        let layer = layer_behind(alloc, sums.as_slice(), &legs[number])?;
        let Some(least) = least_state(layer.sums.as_slice()) else {
            return Ok(Chain::Broken(number as u32));
        };
        last = least.state;
        sums = layer.sums;
        befores.push(layer.befores)?;
    }
    let states = states_back(alloc, &befores, last)?;
    Ok(Chain::States(states))
}
