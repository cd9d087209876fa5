//! Why a target is no request.

ghost use Rattle.std.specs.Prelude.{◌≡◌};
ghost use Rattle.url_read.specs.declared.refusals.RequestFault.TheVariants.{Memory};

use road_base::Text;
use std::alloc::{AllocError, AllocFailed};

/// What kind of fault a target has, in the words of replies.
#[derive(Clone, Copy, Debug, PartialEq, Eq)]
pub enum RefusalCode {
    /// The target isn't of the form of a path and a query.
    InvalidUrl,
    /// The service isn't served.
    InvalidService,
    /// The version isn't `v1`.
    InvalidVersion,
    /// An option is unknown, not of its form, or lacking.
    InvalidOptions,
    /// A coordinate isn't of its form, or there are too few.
    InvalidQuery,
    /// A coordinate isn't on the Earth.
    InvalidValue,
    /// There are too many coordinates.
    TooBig,
}

/// A refusal: its code, and a message that names the place of the fault. A name in it stands as the
/// target has it, whatever its characters are.
#[derive(Debug)]
pub struct Refusal {
    pub code: RefusalCode,
    pub message: Text,
}

impl Drop for Refusal {
    fn drop(self) {
        let Refusal {
            code: _code,
            message: _message,
        } = self;
    }
}

/// Why there is no request.
#[derive(Drop, Debug)]
pub enum RequestFault {
    /// The target is refused.
    Refused(Refusal),
    /// There was no memory for the request or for its refusal.
    Memory,
}

impl From<AllocError> for RequestFault {
    ghost from_gives = { λ _ e. e ≡ Memory };

    fn from(_error: AllocError) -> RequestFault {
        RequestFault::Memory
    }
}

impl<T: Drop> From<AllocFailed<T>> for RequestFault {
    ghost from_gives = { λ _ e. e ≡ Memory };

    fn from(_error: AllocFailed<T>) -> RequestFault {
        RequestFault::Memory
    }
}
