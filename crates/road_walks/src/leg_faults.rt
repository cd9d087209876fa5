//! What legs lack.

ghost use Rattle.std.specs.Prelude.{◌≡◌};
ghost use Rattle.road_walks.specs.declared.leg_faults.LegFault.TheVariants.{Memory};

use std::alloc::{AllocError, AllocFailed};

/// Why not each leg got a route.
#[derive(Clone, Copy, Debug, PartialEq, Eq)]
pub enum LegFault {
    /// No permitted walk leads along the leg of this number, from 0, and it is the first such leg; of legs that are to be
    /// one walk, it is the first to whose end none leads.
    NoWalk(u32),
    /// Memory ran out.
    Memory,
}

impl From<AllocError> for LegFault {
    ghost from_gives = { λ _ fault. fault ≡ Memory };

    fn from(_error: AllocError) -> LegFault {
        LegFault::Memory
    }
}

impl<T: Drop> From<AllocFailed<T>> for LegFault {
    ghost from_gives = { λ _ fault. fault ≡ Memory };

    fn from(_error: AllocFailed<T>) -> LegFault {
        LegFault::Memory
    }
}
