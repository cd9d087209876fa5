//! The way back from a node of the tree to the one that it is one hop behind, in four bytes.

ghost use Rattle.std.specs.Prelude.{◌≡◌, None, Some, IfOk};

use std::alloc::AllocError;
use std::marker::Model;

/// The place of a node in the tree, or none.
#[derive(Clone, Copy, Drop)]
pub struct Link {
    // one more than the place, or 0
    number: u32,
}

impl Model for Link {
    ghost use Rattle.std.specs.Prelude.{ℕ, Option};
    ghost use Rattle.step_search.specs.Linked.{place_of, number_of, number_of-place_of};

    ghost Value = { Option ℕ };

    ghost view = { λ l. place_of l.number };

    ghost inverse = { λ o. record { number = number_of o } };

    ghost inverse_ok = { λ a h i. record { number = number_of-place_of a.number i } };
}

impl Link {
    /// A link to no node.
    pub fn none() -> Link
        ensures { result ≡ None }
    {
        Link { number: 0 }
    }

    /// A link to the node at `place`. Where the place is past 2^32 - 2 it answers the error, as where memory
    /// runs out.
    pub fn to(place: usize) -> Result<Link, AllocError>
        ensures { IfOk result (λ l. l ≡ Some place) }
    {
        if place >= u32::MAX as usize {
            return Err(AllocError);
        }
        Ok(Link {
            number: place as u32 + 1,
        })
    }

    /// The place that it leads to.
    pub fn place(self) -> Option<usize>
        ensures { result ≡ self }
    {
        if self.number == 0 {
            return None;
        }
        Some(self.number as usize - 1)
    }
}
