//! Networks of such texts. A proof takes time for each exit past a value that holds much, so a function that owns one has a
//! single exit behind it.

use edge_graph::{BuildFault, Network};
use opl_read::read;
use road_base::Object;
use std::alloc::Global;
use way_profile::Profile;

/// The settings of a car that drives 40 km/h in residential streets, and that bollards stop.
pub const CAR: &str =
    "name = \"car\"\nvehicle = \"motorcar\"\nbarriers = [\"bollard\"]\nu_turn_penalty = 200\n[speeds]\nresidential = 40\n";

// The network of these objects under a profile, in a box.
fn boxed_network(
    alloc: Global,
    objects: &[Object],
    profile: &Profile,
) -> Result<Box<Network>, BuildFault> {
    let network = Network::build(alloc, objects, profile)?;
    match Box::new(alloc, network) {
        Ok(network) => Ok(network),
        Err(_) => Err(BuildFault::Memory),
    }
}

// The network of these objects under these settings.
fn network_under(
    alloc: Global,
    objects: &[Object],
    settings: &str,
) -> Result<Box<Network>, BuildFault> {
    match Profile::read(alloc, settings.as_bytes()) {
        Ok(profile) => boxed_network(alloc, objects, &profile),
        Err(_) => Err(BuildFault::Memory),
    }
}

/// The network of a map under these settings, in a box.
pub fn network_of(alloc: Global, map: &str, settings: &str) -> Result<Box<Network>, BuildFault> {
    match read(alloc, map.as_bytes()) {
        Ok(objects) => network_under(alloc, &objects, settings),
        Err(_) => Err(BuildFault::Memory),
    }
}
