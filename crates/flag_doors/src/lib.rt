//! Connections and doors in memory that wait for flags, made ready for the tests of what serves them: so a test says in
//! which order connections come, whatever the schedule of its threads.
#![tactic(auto)]

mod waiting_conns;
mod waiting_doors;
mod waiting_flags;

pub use waiting_conns::{connection, push_conn};
pub use waiting_doors::{Told, push_door, put_back};
pub use waiting_flags::{Flags, flag, gate_of, new_flags};
