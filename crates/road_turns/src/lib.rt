//! The turns from one vertex of the road segments to the next that barriers and turn restrictions over nodes permit:
//! their list, and what tells of two vertices whether the one may follow the other. `specs/` is to be read in this order:
//! `Restrictions` (which restrictions apply on these segments, and what they forbid), `Turn` (which vertex may follow which)
//! and `Departures` (which vertices leave a node). Worked maps are tested in `worked_maps`.
#![tactic(auto)]

mod decisions;
mod departures;
mod fans;
mod leaving;
mod limits;
mod restrictions;
mod turn_counts;
mod turn_lists;

pub use departures::Departures;
pub use restrictions::Restrictions;
pub use turn_counts::turn_count;
pub use turn_lists::{Exits, must_turn_back, other_way, turn_list};
