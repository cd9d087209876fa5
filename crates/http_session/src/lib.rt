//! What a port for HTTP connections does with any connection, whatever it answers: it keeps the bytes that
//! were taken and not yet read, finds the next request's head in them, takes its body, and refuses what is none.
//!
//! `specs/` says what a connection is from its first byte to its end, for any port: its exchanges
//! (`Exchanges`), and how it ended (`Ending`). Which requests a port serves, how it answers them and what it
//! knows meanwhile are the port's own; these definitions are over any rule of one exchange. `SoFar` has the
//! laws by which a port's loop goes on. The tests are those of `route_server`.
#![tactic(auto)]

mod bodies;
mod coming;
mod ended;
mod refusing;
mod unread;

pub use bodies::{Body, take_body};
pub use coming::{Coming, next_head};
pub use ended::Ended;
pub use refusing::refuse;
pub use unread::Unread;
