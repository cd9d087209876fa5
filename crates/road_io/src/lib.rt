//! The outside of the program as traits: byte sources and sinks, files, connections and the doors
//! that they come through, with the forms of each that live in memory. Every object counts its faults,
//! so a failure that is reported always has its cause in the contract, and tells what it holds where
//! that is known. Nothing here opens a file or a socket.
#![tactic(auto)]

mod byte_sinks;
mod byte_sources;
mod connections;
mod doorways;
mod failures;
mod file_access;
mod gateways;
mod memory;

pub use byte_sinks::{Sink, put_all};
pub use byte_sources::Source;
pub use connections::{Conn, put_whole, take_into};
pub use doorways::{Closer, Door, DoorSet, Doors, Opened, any_fault};
pub use failures::{DoorsFault, Failed, FileFault};
pub use file_access::Files;
pub use gateways::{Gate, OpenGate};
pub use memory::{
    MemCloser, MemConn, MemDoor, MemFiles, MemSink, MemSource, NoDoors, SteadyFiles, SteadySink,
    SteadySource,
};
