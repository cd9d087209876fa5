//! The turn restrictions of a map: which turns each forbids to a vehicle, by its ways and its node, or which way on
//! along its via ways.
//! Where these lie, and which segments they have, is not looked at here.
#![tactic(auto)]

mod exceptions;
mod map_rules;
mod members;
mod restrictions;
mod rule_lists;
mod senses;
mod via_restrictions;

pub use map_rules::rules;
pub use rule_lists::Rules;
pub use senses::Sense;
pub use via_restrictions::ViaRestriction;
