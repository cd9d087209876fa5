//! Which segments a coordinate may be snapped to.

/// A bearing, and by how much another may differ from it, both in whole degrees.
#[derive(Clone, Copy, Debug, PartialEq, Eq)]
pub struct Heading {
    /// the bearing clockwise from north; one turn more is the same bearing
    pub value: u32,
    /// by how many degrees another bearing may differ from it, either way round the circle
    pub range: u32,
}

/// What a segment must meet, so that a coordinate may be snapped to it. A segment with no open direction is
/// never kept.
#[derive(Clone, Copy, Debug, PartialEq, Eq)]
pub struct Filter {
    /// how many decimetres away its nearest place may lie; None where it may lie anywhere
    pub radius: Option<u64>,
    /// the heading of one of its open directions; None where each will do. It chooses the segment alone: the
    /// other direction may be driven along too
    pub heading: Option<Heading>,
}
