//! How a call of the outside fails.

/// The outside failed, and the object that was called has counted it.
#[derive(Clone, Copy, Debug, PartialEq, Eq)]
pub struct Failed;

/// Why a file was not read.
#[derive(Clone, Copy, Debug, PartialEq, Eq)]
pub enum FileFault {
    /// The file could not be read, or is not there; counted as a fault.
    Failed,
    /// There was no memory for its bytes; not a fault.
    Memory,
}

/// Why doors were not opened.
#[derive(Clone, Copy, Debug, PartialEq, Eq)]
pub enum DoorsFault {
    /// An address could not be listened at; counted as a fault.
    Failed,
    /// There was no memory for the doors; not a fault.
    Memory,
}
