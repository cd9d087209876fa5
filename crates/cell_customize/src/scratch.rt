//! What is used again and again: the vertices inside a cell, the leaps between them, and a search that is begun anew at one
//! entry after another.

use crate::leaps::Leaps;
use crate::local::Local;
use label_search::Labels;
use search_graph::Cost;
use std::alloc::Global;

/// What one worker uses again for each cell, and for each of its entries.
pub struct Scratch<C: Cost> {
    pub local: Local<C>,
    pub leaps: Leaps<C>,
    pub labels: Labels<C>,
}

impl<C: Cost> Drop for Scratch<C> {
    fn drop(self) {
        let Scratch {
            local: _local,
            leaps: _leaps,
            labels: _labels,
        } = self;
    }
}

impl<C: Cost> Scratch<C> {
    /// Nothing, to be filled.
    pub fn new(alloc: Global) -> Scratch<C> {
        Scratch {
            local: Local::new(alloc),
            leaps: Leaps::new(alloc),
            labels: Labels::new(alloc),
        }
    }
}
