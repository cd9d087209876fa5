//! The most segments. The limit is this project's own.

/// The most segments that a network may have.
pub const MOST_SEGMENTS: usize = 16_777_216;
