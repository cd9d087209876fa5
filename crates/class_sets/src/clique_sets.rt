//! Cliques for several weightings.

ghost use Rattle.std.specs.Prelude.{◌≡◌, ◌<◌, length, Some};
ghost use Rattle.std.specs.List.{slice_get};

use cell_frame::Cliques;
use search_graph::Cost;
use std::marker::Model;

/// The cliques of each of several weightings of one frame, in the order of the weightings. Contracts see a list.
pub struct CliqueSets<C: Cost> {
    sets: Vec<Cliques<C>>,
}

impl<C: Cost> Drop for CliqueSets<C> {
    fn drop(self) {
        let CliqueSets { sets: _sets } = self;
    }
}

impl<C: Cost> Model for CliqueSets<C> {
    ghost use Rattle.std.specs.Prelude.{List};
    ghost use Rattle.cell_frame.specs.Cliqued.{CliqueLists};

    ghost Value = { List (CliqueLists C) };

    ghost view = { λ c. c.sets.items };
}

impl<C: Cost> CliqueSets<C> {
    /// Those of a `Vec`.
    pub fn of(sets: Vec<Cliques<C>>) -> CliqueSets<C>
        ensures { result ≡ sets.items }
    {
        CliqueSets { sets }
    }

    /// Of how many weightings there are cliques.
    pub fn len(&self) -> usize
        ensures { result ≡ length self.now }
    {
        self.sets.len()
    }

    /// The cliques of the weighting at place `k`.
    #[inline(always)]
    pub fn get(&self, k: usize) -> &Cliques<C>
        requires { k < length self.now }
        ensures { slice_get self.now k ≡ Some result.now }
    {
        &self.sets[k]
    }
}
