//! What a query answers.

use search_graph::Numbers;
use std::alloc::{AllocError, AllocFailed};

/// Why a query was not answered.
#[derive(Clone, Copy, Debug, PartialEq, Eq)]
pub enum SearchFault {
    /// Memory ran out.
    Memory,
}

impl From<AllocError> for SearchFault {
    fn from(_error: AllocError) -> SearchFault {
        SearchFault::Memory
    }
}

impl<T: Drop> From<AllocFailed<T>> for SearchFault {
    fn from(_error: AllocFailed<T>) -> SearchFault {
        SearchFault::Memory
    }
}

/// A cheapest walk to a target.
#[derive(Drop)]
pub struct Found<C> {
    /// what is paid at the start, for all arcs, for the vertices in the middle and at the target
    pub cost: C,
    /// the vertices from a start to the target, two or more
    pub walk: Numbers,
}
