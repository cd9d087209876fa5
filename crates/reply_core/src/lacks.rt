//! Why a request gets no more than what it lacks.

ghost use Rattle.std.specs.Prelude.{◌≡◌};
ghost use Rattle.reply_core.specs.Faults.{leg_fault, place_fault};
ghost use Rattle.reply_core.specs.declared.lacks.PlaceFault.TheVariants as place;
ghost use Rattle.reply_core.specs.declared.lacks.FoundFault.TheVariants as fault;

use refusal_texts::Lack;
use road_walks::LegFault;
use std::alloc::{AllocError, AllocFailed};

/// Why not each coordinate got a place.
#[derive(Clone, Copy, Debug, PartialEq, Eq)]
pub enum PlaceFault {
    /// The coordinate of this number, from 0, has no place; it is the first such coordinate.
    NoPlace(u32),
    /// Memory ran out.
    Memory,
}

impl From<AllocError> for PlaceFault {
    ghost from_gives = { λ _ fault. fault ≡ place.Memory };

    fn from(_error: AllocError) -> PlaceFault {
        PlaceFault::Memory
    }
}

impl<T: Drop> From<AllocFailed<T>> for PlaceFault {
    ghost from_gives = { λ _ fault. fault ≡ place.Memory };

    fn from(_error: AllocFailed<T>) -> PlaceFault {
        PlaceFault::Memory
    }
}

/// Why a request got nothing of what it asks for.
#[derive(Clone, Copy, Debug, PartialEq, Eq)]
pub enum FoundFault {
    /// There is none.
    Lacks(Lack),
    /// Memory ran out.
    Memory,
}

impl From<PlaceFault> for FoundFault {
    ghost from_gives = { λ fault result. result ≡ place_fault fault };

    fn from(fault: PlaceFault) -> FoundFault {
        match fault {
            PlaceFault::NoPlace(coordinate) => FoundFault::Lacks(Lack::Segment(coordinate)),
            PlaceFault::Memory => FoundFault::Memory,
        }
    }
}

impl From<LegFault> for FoundFault {
    ghost from_gives = { λ fault result. result ≡ leg_fault fault };

    fn from(fault: LegFault) -> FoundFault {
        match fault {
            LegFault::NoWalk(leg) => FoundFault::Lacks(Lack::Route(leg)),
            LegFault::Memory => FoundFault::Memory,
        }
    }
}

impl From<AllocError> for FoundFault {
    ghost from_gives = { λ _ result. result ≡ fault.Memory };

    fn from(_error: AllocError) -> FoundFault {
        FoundFault::Memory
    }
}

impl<T: Drop> From<AllocFailed<T>> for FoundFault {
    ghost from_gives = { λ _ result. result ≡ fault.Memory };

    fn from(_error: AllocFailed<T>) -> FoundFault {
        FoundFault::Memory
    }
}
