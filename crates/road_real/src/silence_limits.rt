//! How long a client may be silent.

ghost use Rattle.std.specs.Prelude.{◌≡◌};
ghost use Rattle.std.specs.Duration.{as_nanos};

use std::time::Duration;

/// How long a read waits for a client that sends nothing, and a write for one that takes nothing. A call that
/// waits longer fails, and so does each call of a connection for which the system sets no such limit, as it
/// sets none of no time.
#[derive(Clone, Copy, Debug, PartialEq, Eq)]
pub struct SilenceLimits {
    /// At the query doors.
    pub query: Duration,
    /// At the control door.
    pub control: Duration,
}

impl SilenceLimits {
    /// The limits of the program: a minute for queries, and five for those that publish.
    pub fn of_program() -> SilenceLimits
        ensures query { as_nanos result.query ≡ 60_000_000_000 }
        ensures control { as_nanos result.control ≡ 300_000_000_000 }
    {
        SilenceLimits {
            query: Duration::from_secs(60),
            control: Duration::from_secs(300),
        }
    }
}
