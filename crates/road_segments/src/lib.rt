//! The segments of a map for one vehicle: every piece of road between two neighbouring nodes of a way that the
//! vehicle may use, with what its nodes and its way are to it, in flat lists. Worked maps are tested in
//! `worked_maps`.
#![tactic(auto)]

mod limits;
mod road_faults;
mod roads;
mod routes;
mod spots;
mod streets;

pub use road_faults::RoadFault;
pub use roads::Roads;
