//! Forbidden sequences in groups.

/// Sequences that share their middle: each start, then the path, then each end. They come by the start, and then by the
/// end; without a start or an end there is none. It costs 4 bytes a start, a vertex of the path and an end.
#[derive(Drop)]
pub struct Barred {
    /// the vertices at which its sequences begin
    pub starts: Vec<u32>,
    /// the vertices between the two ends of each sequence, in the order of the walk
    pub path: Vec<u32>,
    /// the vertices at which its sequences end
    pub ends: Vec<u32>,
}
