//! Why copies, or the arcs with them, were not made.

use std::alloc::{AllocError, AllocFailed};

/// Why copies were not made.
#[derive(Clone, Copy, Debug, PartialEq, Eq)]
pub enum ViaError {
    /// More than 2^20 vertices would have to be copied.
    TooManyVias,
    /// Memory ran out.
    Memory,
}

/// Why arcs were not made.
#[derive(Clone, Copy, Debug, PartialEq, Eq)]
pub enum ArcsError {
    /// The graph would have more than 2^27 arcs.
    TooManyTurns,
    /// Memory ran out.
    Memory,
}

impl From<AllocError> for ViaError {
    ghost use Rattle.std.specs.Prelude.{◌≡◌};
    ghost use Rattle.via_paths.specs.declared.errors.ViaError.TheVariants.{Memory};

    ghost from_gives = { λ _ r. r ≡ Memory };

    fn from(_error: AllocError) -> ViaError {
        ViaError::Memory
    }
}

impl<T: Drop> From<AllocFailed<T>> for ViaError {
    ghost use Rattle.std.specs.Prelude.{◌≡◌};
    ghost use Rattle.via_paths.specs.declared.errors.ViaError.TheVariants.{Memory};

    ghost from_gives = { λ _ r. r ≡ Memory };

    fn from(_error: AllocFailed<T>) -> ViaError {
        ViaError::Memory
    }
}

impl From<AllocError> for ArcsError {
    ghost use Rattle.std.specs.Prelude.{◌≡◌};
    ghost use Rattle.via_paths.specs.declared.errors.ArcsError.TheVariants.{Memory};

    ghost from_gives = { λ _ r. r ≡ Memory };

    fn from(_error: AllocError) -> ArcsError {
        ArcsError::Memory
    }
}
