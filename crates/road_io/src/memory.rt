//! The forms that live in memory: sources, sinks, connections, files and doors that cut and fail as they are
//! told to, forms that never fail, and doors that never open.

mod connections;
mod doors;
mod files;
mod no_doors;
mod pieces;
mod sinks;
mod sources;
mod steady;

pub use connections::MemConn;
pub use doors::{MemCloser, MemDoor};
pub use files::MemFiles;
pub use no_doors::NoDoors;
pub use sinks::MemSink;
pub use sources::MemSource;
pub use steady::{SteadyFiles, SteadySink, SteadySource};
