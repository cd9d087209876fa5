//! Numbers in the texts of map data, traffic files and requests: whole numbers, decimals as whole numbers of a unit,
//! and the ids of OpenStreetMap objects. Nothing here takes memory or fails but by answering that a text is no number.
#![tactic(auto)]

mod decimals;
mod numerals;
mod object_ids;
mod usual_decimals;

pub use decimals::{FARTHEST, decimal, microdegrees};
pub use numerals::{is_numeral, whole};
pub use object_ids::id;
