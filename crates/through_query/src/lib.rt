//! The least chain of states through legs, over what each leg costs from each state to each.
//!
//! A route through some places is one walk where each leg begins with the direction in which the leg before ends. What
//! it does at a place is a state: a direction of the street there. For each leg there is a table of what it costs from
//! each state at its first place to each at its second, [`LegCosts`], and [`least_chain`] chooses a state at each place
//! so that the legs between them cost the least together. It knows no graph: the costs are those that searches have
//! found.
//!
//! It goes forward, and keeps for each state of a place the least sum with which a chain comes to it, and the state
//! before (A. J. Viterbi, "Error bounds for convolutional codes and an asymptotically optimum decoding algorithm",
//! 1967). So it takes as many steps as the tables have values. Sums have 128 bits, since legs may cost up to what a
//! `WeightDurLen` holds.
//!
//! `specs/Chains` says what chains are, what they cost and which is the least, and where legs break; `specs/ChainLaws`
//! what follows for a chain through the first legs and through the rest.
#![tactic(auto)]

mod chains;
mod layers;
mod legs;
mod steps;
mod sums;

pub use chains::{Chain, least_chain};
pub use legs::LegCosts;

#[cfg(test)]
mod tests;
