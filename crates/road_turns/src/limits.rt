//! The most turns. The limit is this project's own.

/// The most turns that a network may have.
pub const MOST_TURNS: usize = 134_217_728;
