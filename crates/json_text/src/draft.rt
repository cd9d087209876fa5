//! What contracts say of a text under construction.

/// A container that is open.
#[derive(Clone, Copy, Debug, PartialEq, Eq)]
pub enum Container {
    Object,
    Array,
}

/// What stands last in the innermost open container, or in the whole text where none is open.
#[derive(Clone, Copy, Debug, PartialEq, Eq)]
pub enum Last {
    /// Nothing yet: its opening bracket.
    Opening,
    /// A key, whose value has to come.
    Key,
    /// A value, or a key with its value.
    Value,
}
