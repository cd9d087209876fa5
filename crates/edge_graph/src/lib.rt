//! The road network of one vehicle: every piece of road between two neighbouring nodes of a way, in both
//! directions, and the turns from one to the next that barriers and turn restrictions permit. Worked
//! maps are tested in `worked_maps`.
#![tactic(auto)]

mod build_faults;
mod networks;
mod parts;
mod searched;

pub use build_faults::BuildFault;
pub use networks::Network;
