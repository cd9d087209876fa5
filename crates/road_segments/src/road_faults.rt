//! Why the segments of a map are refused.

ghost use Rattle.std.specs.Prelude.{◌≡◌};
ghost use Rattle.road_segments.specs.declared.road_faults.RoadFault.TheVariants.{Memory};

use std::alloc::AllocError;

/// Why the segments of a map were not listed.
#[derive(Clone, Copy, Debug, PartialEq, Eq)]
pub enum RoadFault {
    /// There are more than a network may have (`most_segments`).
    TooManySegments,
    /// Memory ran out.
    Memory,
}

impl From<AllocError> for RoadFault {
    ghost from_gives = { λ _ fault. fault ≡ Memory };

    fn from(_error: AllocError) -> RoadFault {
        RoadFault::Memory
    }
}
