//! Small towns as OPL texts, and their networks, for the tests of networks and of metrics.
#![tactic(auto)]

mod networks;
mod towns;

pub use networks::{CAR, network_of};
pub use towns::{bend, crossing, to_and_fro};
