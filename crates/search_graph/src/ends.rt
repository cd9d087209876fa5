//! Where a search begins and ends.

/// A vertex at which a walk may begin, and what is paid there in place of the vertex's own cost.
#[derive(Clone, Copy, Debug, PartialEq, Eq, PartialOrd, Ord)]
pub struct Start<C> {
    /// the vertex's number
    pub vertex: u32,
    /// paid once, at the beginning
    pub cost: C,
}

/// A vertex at which a walk may end, and what is paid there in place of the vertex's own cost.
#[derive(Clone, Copy, Debug, PartialEq, Eq, PartialOrd, Ord)]
pub struct Target<C> {
    /// the vertex's number
    pub vertex: u32,
    /// paid once, at the end
    pub cost: C,
}
