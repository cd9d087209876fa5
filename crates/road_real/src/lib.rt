//! The outside of the program as the system has it: files, the standard streams, and doors over TCP. Each form
//! meets a trait of `road_io`: it tells its counts, and nothing of what it holds. Proved are the counts: that
//! `Failed` comes exactly where a count of faults rose, how many bytes were taken, how many doors an opening
//! gives, how many connections a door gave and took back, and that a door that has ended stays so.
//!
//! This is the trusted edge. No clause says the following; it rests on the bodies, which are as short as can
//! be, and on their tests:
//! - the bytes of a file are those that `fs::read` gives for its name;
//! - a source gives what its reader of std gives, and a sink hands what is put to its writer of std, in order;
//! - doors listen at the addresses that `open` was handed, and at no other;
//! - a door's connections are those that its listener's `accept` gives, and each takes and puts the bytes of
//!   its own socket;
//! - no call waits longer for a client than its door says, since the system keeps the limits of the socket;
//! - a door tells that it was closed only where its closer was used, and then it gives no connection more;
//! - the closer wakes each door that waits, since the system hands each connection to one `accept`.
#![tactic(auto)]

mod accepting;
mod retrying;
mod silence_limits;
mod std_streams;
mod system_files;
mod tcp_conns;
mod tcp_doors;
mod tcp_opening;

pub use silence_limits::SilenceLimits;
pub use std_streams::{Reading, Writing};
pub use system_files::SystemFiles;
pub use tcp_conns::TcpConn;
pub use tcp_doors::TcpDoor;
pub use tcp_opening::{TcpCloser, TcpDoors};

#[cfg(test)]
mod tests;
