//! Why a network is not built.

ghost use Rattle.std.specs.Prelude.{◌≡◌};
ghost use Rattle.edge_graph.specs.declared.build_faults.BuildFault.TheVariants.{Memory};

use std::alloc::AllocError;

/// Why a network was not built. The limits are this project's own (`most_segments`,
/// `most_copies`, `most_turns`).
#[derive(Clone, Copy, Debug, PartialEq, Eq)]
pub enum BuildFault {
    /// There are more than 2^24 segments.
    TooManySegments,
    /// More than 2^20 vertices would have to be copied for the turn restrictions over via ways.
    TooManyVias,
    /// There are more than 2^27 turns, or so many arcs in the graph with copies.
    TooManyTurns,
    /// Memory ran out.
    Memory,
}

impl From<AllocError> for BuildFault {
    ghost from_gives = { λ _ fault. fault ≡ Memory };

    fn from(_error: AllocError) -> BuildFault {
        BuildFault::Memory
    }
}
