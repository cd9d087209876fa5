//! What a trip is.

use search_graph::Numbers;

/// A trip through all places.
pub struct Trip<C> {
    /// the places by their numbers, from 0, in the order in which the trip comes to them
    pub order: Numbers,
    /// what all its legs cost together, that of the way back among them where it returns
    pub cost: C,
}

impl<C: Drop> Drop for Trip<C> {
    fn drop(self) {
        let Trip {
            order: _order,
            cost: _cost,
        } = self;
    }
}
