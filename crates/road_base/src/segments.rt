//! Places on road segments.

/// A place on a road: so many 1024ths, from 0 to 1024, along a segment in the direction of its way.
/// Segments are numbered from 0 over the whole network.
#[derive(Clone, Copy, Debug, PartialEq, Eq)]
pub struct Place {
    pub segment: u32,
    pub at: u32,
}
