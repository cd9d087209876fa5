//! Worked maps, settings and lines.

use std::alloc::{AllocError, Global};

/// A street of two segments that meet at a right angle.
pub const TOWN: &[u8] =
    b"n1 x0 y0\nn2 x0 y0.001\nn3 x0.001 y0.001\nw10 Thighway=residential Nn1,n2,n3\n";

/// The town with an escaped name, a changeset and a way that was deleted.
pub const TOWN_NAMED: &[u8] =
    b"n1 x0 y0\nn2 x0 y0.001\nn3 x0.001 y0.001\nw10 Nn1,n2,n3 v7 Tname=Main%20%Street%d%,highway=residential\nc7 k2 d0 uAnn\nw11 dD Thighway=residential Nn1,n3\n";

/// The settings of a car that drives 40 km/h in residential streets.
pub const SETTINGS: &[u8] =
    b"name = \"car\"\nvehicle = \"motorcar\"\nu_turn_penalty = 200\n\n[speeds]\nresidential = 40\n";

/// A line that asks for the route along the whole street of the town.
pub const LINE: &[u8] = b"GET /route/v1/car/0,0;0.001,0.001?overview=false\n";

/// The reply to it under the metric of the start.
pub const REPLY: &str =
    "{\"code\":\"Ok\",\"data_version\":\"0\",\"routes\":[{\"distance\":222.2,\"duration\":19.8,\"weight\":19.8,\"weight_name\":\"duration\",\"legs\":[{\"distance\":222.2,\"duration\":19.8,\"weight\":19.8,\"summary\":\"\",\"steps\":[]}]}],\"waypoints\":[{\"distance\":0.0,\"name\":\"\",\"location\":[0.000000,0.000000]},{\"distance\":0.0,\"name\":\"\",\"location\":[0.001000,0.001000]}]}\n";

/// A line that asks for the route from the south to the west of the star.
pub const SOUTH_TO_WEST: &[u8] = b"GET /route/v1/car/0.001,0;0,0.001?overview=false\n";

// Four streets that meet at a fifth node, between whose tags and the streets `star` puts them together.
const STAR_NODES: &[u8] =
    b"n1 x0.001 y0\nn2 x0.002 y0.001\nn3 x0.001 y0.002\nn4 x0 y0.001\nn5 x0.001 y0.001";

const STAR_WAYS: &[u8] =
    b"\nw1 Thighway=residential Nn1,n5\nw2 Thighway=residential Nn5,n2\nw3 Thighway=residential Nn5,n3\nw4 Thighway=residential Nn4,n5\n";

/// The star with these tags at its fifth node, and this restriction.
pub fn star(alloc: Global, tags: &[u8], restriction: &[u8]) -> Result<Vec<u8>, AllocError> {
    let mut map = Vec::from_slice(alloc, STAR_NODES)?;
    map.extend_from_slice(tags)?;
    map.extend_from_slice(STAR_WAYS)?;
    map.extend_from_slice(restriction)?;
    Ok(map)
}

/// A text so many times, behind another.
pub fn repeated(
    alloc: Global,
    front: &[u8],
    text: &[u8],
    times: usize,
) -> Result<Vec<u8>, AllocError> {
    let mut all = Vec::from_slice(alloc, front)?;
    for _ in 0..times {
        all.extend_from_slice(text)?;
    }
    Ok(all)
}
