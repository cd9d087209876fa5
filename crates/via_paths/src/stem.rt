//! A start of a group.

/// A start of a group that has an end. With the path behind it, it is all but the last vertex of the sequences that
/// begin there.
#[derive(Clone, Copy, Debug, Drop)]
pub struct Stem {
    /// the number of the group
    pub group: usize,
    /// the start
    pub start: u32,
}
