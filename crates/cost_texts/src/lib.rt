//! Costs and vertices as texts, each with a blank behind it: so tests compare what is found with one text.
#![tactic(auto)]

mod costs;
mod vertices;

pub use costs::{cost_told, costs_told, row_told};
pub use vertices::vertices_told;
