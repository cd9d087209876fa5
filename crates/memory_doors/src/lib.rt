//! Doors in memory, for whatever serves connections: a queue of connections that comes through a door, what
//! opens such doors and takes them back, and connections that wait for one another by flags, so that a test
//! says in which order threads come to them. They tell all that comes through them. Steady doors never fail.
#![tactic(auto)]

mod door_queues;
mod flag_conns;
mod flags;
mod mem_doors;
mod steady_conns;
mod steady_doors;

pub use door_queues::QueueDoor;
pub use flag_conns::FlagConn;
pub use flags::{Flag, FlagGate};
pub use mem_doors::{MemDoors, Returned};
pub use steady_conns::SteadyConn;
pub use steady_doors::{SteadyDoor, SteadyDoors};
