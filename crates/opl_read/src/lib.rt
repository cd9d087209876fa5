//! Reads map data of OpenStreetMap in OPL, "object per line" (https://osmcode.org/opl-file-format): a text
//! to its objects, or its first faulty line.
#![tactic(auto)]

mod content;
mod cutting;
mod escapes;
mod line_faults;
mod line_parts;
mod line_text;
mod lines;
mod members;
mod reading;
mod seen_ids;

pub use line_faults::{FaultKind, LineFault, ReadFault};
pub use reading::read;
