//! Flags by which connections wait for each other.

use memory_doors::{Flag, FlagGate};
use std::alloc::{AllocError, Global};
use std::sync::Arc;

/// How many turns a wait for a flag takes at most.
pub(crate) const TURNS: u64 = 1_000_000;

/// A flag that is not set.
pub fn flag(alloc: Global) -> Result<Arc<Flag>, AllocError> {
    Ok(Arc::new(alloc, Flag::new())?)
}

/// The flags by which the connections wait for each other.
#[derive(Drop)]
pub struct Flags {
    pub begun: Arc<Flag>,
    pub arrived: Arc<Flag>,
    pub published: Arc<Flag>,
    pub answered: Arc<Flag>,
    pub other: Arc<Flag>,
}

pub fn new_flags(alloc: Global) -> Result<Flags, AllocError> {
    let begun = flag(alloc)?;
    begun.set();
    Ok(Flags {
        begun,
        arrived: flag(alloc)?,
        published: flag(alloc)?,
        answered: flag(alloc)?,
        other: flag(alloc)?,
    })
}

/// The gate that holds the first seat under number 0 until the second was answered.
pub fn gate_of(flags: Flags) -> FlagGate {
    let Flags {
        begun: _,
        arrived,
        published: _,
        answered,
        other: _,
    } = flags;
    FlagGate::of(0, 0, arrived, answered, TURNS)
}
